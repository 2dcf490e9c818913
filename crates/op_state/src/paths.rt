// Paths that were opened for writing, each once.
ghost use Rattle.std.specs.Prelude.{◌≡◌, ◌≤◌, ◌+◌, length};
ghost use Rattle.op_state.specs.Paths.{with_number, with_numbers};

// Puts the paths behind those that are there, each where it is not there yet.
pub(crate) fn add_all(paths: &mut Vec<u32>, more: &[u32])
    requires { length paths.old.items + length more.now ≤ paths.old.cap }
    ensures { paths.new.items ≡ with_numbers more.now paths.old.items }
{
    for path in more.iter() {
        add(paths, *path);
    }
}

// Puts a path behind those that are there, where it is not there yet.
fn add(paths: &mut Vec<u32>, path: u32)
    requires { length paths.old.items + 1 ≤ paths.old.cap }
    ensures added { paths.new.items ≡ with_number path paths.old.items }
    ensures room { paths.old.cap ≤ paths.new.cap }
{
    if !paths.contains(&path) {
        let _ = paths.push(path);
    }
}
