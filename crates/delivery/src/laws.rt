// Laws of what a delivery leaves.
ghost use Rattle.std.specs.Prelude.{◌≡◌, ℕ, List, Option, true, false, IsOk};
ghost use Rattle.prov_outside.specs.Folder.{Files};
ghost use Rattle.prov_outside.specs.Console.{ConsoleView};
ghost use Rattle.delivery.specs.Ending.{Ending, done, tells_of_store};
ghost use Rattle.delivery.specs.PutsAll.{OutFile, Outcome, PutsAll};
ghost use Rattle.delivery.specs.Stands.{Stand, WentWell, DidAsPlanned, all_well, IsWell};
ghost use Rattle.delivery.specs.Delivered.{Delivered};
ghost use Rattle.delivery.specs.Ends.{Ends, GetsPrefixes};
ghost use Rattle.prov_outside.specs.Count.{Rose};
ghost use Rattle.prov_outside.specs.Tells.{Tells};

/// The law of puts: where no two files have one path, each file whose put went well stands afterwards, whatever became of the
/// others. Every path that none of them has is as before.
pub fn puts_stand()
    ensures { (files : List OutFile) (puts : List Outcome) (before after : Files) → PutsAll files puts before after → Stand files puts before after }
{}

/// The law of a delivery of which no call failed, and for which memory sufficed: the command ended as planned.
pub fn nothing_failed()
    ensures { (planned : Ending) (text : List ℕ) (files : List OutFile) (put_before put_after : ℕ) (told_before told_after : Option Files)
        (out_before out_after : ℕ) (console_before console_after : Option ConsoleView) (status : ℕ)
        (d : Delivered planned text files put_before put_after told_before told_after out_before out_after console_before console_after status)
        → all_well d.puts ≡ true → IsOk d.text_outcome → IsWell d.closing
        → WentWell planned text files put_before put_after told_before told_after out_before out_after console_before console_after status }
{}

/// The law of endings: the status is that of the plan, or 5 or 6 where a count of the console or of the folder rose, or 8.
pub fn ends_in_one_way()
    ensures { (planned : Ending) (text : List ℕ) (files : List OutFile) (put_before put_after : ℕ) (told_before told_after : Option Files)
        (out_before out_after : ℕ) (console_before console_after : Option ConsoleView) (status : ℕ)
        → Delivered planned text files put_before put_after told_before told_after out_before out_after console_before console_after status
        → Ends planned put_before put_after out_before out_after status }
{}

/// The law of prefixes: the console got a prefix of the text and then a prefix of a closing line, that of the status that is answered, or with
/// status 8 of another. Both are whole where the console's count did not rise and the status is not 8.
pub fn prefixes_are_written()
    ensures { (planned : Ending) (text : List ℕ) (files : List OutFile) (put_before put_after : ℕ) (told_before told_after : Option Files)
        (out_before out_after : ℕ) (console_before console_after : Option ConsoleView) (status : ℕ)
        → Delivered planned text files put_before put_after told_before told_after out_before out_after console_before console_after status
        → Tells console_before console_after (λ (before after : ConsoleView). (after.lines ≡ before.lines) × GetsPrefixes text out_before out_after status before.written after.written) }
{}

/// The law of a delivery in which no count rose, and whose status is not 8: the command ended as planned.
pub fn no_count_rose()
    ensures { (planned : Ending) (text : List ℕ) (files : List OutFile) (put_before put_after : ℕ) (told_before told_after : Option Files)
        (out_before out_after : ℕ) (console_before console_after : Option ConsoleView) (status : ℕ)
        → Delivered planned text files put_before put_after told_before told_after out_before out_after console_before console_after status
        → (Rose put_before put_after → ⊥) → (Rose out_before out_after → ⊥) → (status ≡ 8 → ⊥)
        → WentWell planned text files put_before put_after told_before told_after out_before out_after console_before console_after status }
{}

/// The law of a delivery whose status tells of no fault and of no lack of memory: all stands but perhaps the end of the closing line.
pub fn no_fault_answered()
    ensures { (planned : Ending) (text : List ℕ) (files : List OutFile) (put_before put_after : ℕ) (told_before told_after : Option Files)
        (out_before out_after : ℕ) (console_before console_after : Option ConsoleView) (status : ℕ)
        → Delivered planned text files put_before put_after told_before told_after out_before out_after console_before console_after status
        → tells_of_store planned ≡ false → (status ≡ 5 → ⊥) → (status ≡ 6 → ⊥) → (status ≡ 8 → ⊥)
        → DidAsPlanned planned text files put_before put_after told_before told_after console_before console_after status }
{}

/// The law of status 0: it was planned, and all stands.
pub fn done_is_whole()
    ensures { (planned : Ending) (text : List ℕ) (files : List OutFile) (put_before put_after : ℕ) (told_before told_after : Option Files)
        (out_before out_after : ℕ) (console_before console_after : Option ConsoleView) (status : ℕ)
        → Delivered planned text files put_before put_after told_before told_after out_before out_after console_before console_after status
        → status ≡ 0
        → (planned ≡ done) × WentWell planned text files put_before put_after told_before told_after out_before out_after console_before console_after status }
{}
