// Evaluations as lines.
ghost use Rattle.std.specs.Prelude.{◌≡◌, ◌++◌, IfOk, OnOk};
ghost use Rattle.std.specs.String.{string_bytes};
ghost use Rattle.dep_query.specs.SiteTexts.{site_line, site_line_of, site_lines};

use feedings::Site;
use prov_base::{Bytes, Memory};
use std::alloc::{AllocError, Global};

// The line of a place and a number.
fn line_by(alloc: Global, line: u32, col: u32, k: usize) -> Result<String, AllocError>
    ensures { IfOk result (λ made. string_bytes made ≡ site_line_of line col k) }
{
    format!(in alloc; "{line}:{col} {k}\n")
}

// Writes the line of an evaluation.
fn write_site(out: &mut Vec<u8>, alloc: Global, site: &Site) -> Result<(), Memory>
    ensures { OnOk result (out.new.items ≡ out.old.items ++ site_line site.now) }
{
    let line = line_by(alloc, site.at.line, site.at.col, site.k)?;
    out.extend_from_slice(line.as_bytes())?;
    Ok(())
}

/// The lines of evaluations.
pub(crate) fn lines_of_sites(alloc: Global, list: &[Site]) -> Result<Bytes, Memory>
    ensures { IfOk result (λ text. text ≡ site_lines list.now) }
{
    let mut out: Vec<u8> = Vec::new(alloc);
    for site in list {
        write_site(&mut out, alloc, site)?;
    }
    Ok(Bytes::of(out))
}
