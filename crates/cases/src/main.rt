//! Runs many cases of the two programs in memory. The input lists the cases by subject. The results
//! are printed in the same form, so an expected output is written by hand from the rules of the
//! formats.
//!
//! | Line | Meaning |
//! |---|---|
//! | `section TITLE` | the subject of the following cases |
//! | `case NAME` | the start of a case, which the following lines define |
//! | `# ..`, an empty line | none |
//! | `query` | the program is `topos-query`; without this line it is `topos` |
//! | `again` | program, arguments and files are those of the previous case; the first line of a case |
//! | `word TEXT` | the next argument of its command line |
//! | `file NAME` | a file, with the bytes of the following lines |
//! | `\|TEXT`, `>TEXT` | bytes of the file, with and without a line end |
//! | `fill COUNT TEXT`, `lines COUNT TEXT` | the text that many times, without and with a line end |
//! | `each FIRST LAST TEXT` | the text as a line for each number, which replaces `{}`; the next one replaces `{+}` |
//! | `byte NUMBER` | one byte |
//! | `shelf CALL`, `out CALL`, `err CALL` | this call of the shelf or of the sink fails |
//! | `room COUNT`, `grain COUNT` | the number of bytes that `out` accepts in total, and at most in one write |
//!
//! A case ends at the next case or section, and at the end of the input. Then it is run.
#![tactic(auto)]

mod case;
mod show;

use anyhow::{Result, bail};
use case::Case;
use std::alloc::Global;

fn main(rt: HostRuntime) -> Result<()> {
    let alloc = rt.alloc();
    let mut before = Case::none(alloc);
    let mut case = Case::none(alloc);
    for line in rt.lines(alloc) {
        let line = line?;
        if let Some(title) = line.as_str().strip_prefix("section ") {
            end(&rt, alloc, &case)?;
            before = case;
            case = Case::none(alloc);
            println!(&rt; "section {title}")?;
        } else if let Some(name) = line.as_str().strip_prefix("case ") {
            end(&rt, alloc, &case)?;
            before = case;
            case = Case::new(alloc, name)?;
        } else if line.as_str() == "again" {
            if case.name().is_none() || before.name().is_none() {
                bail!("again without a case before");
            }
            if !case.is_empty() {
                bail!("lines before again");
            }
            case = case.again(alloc, before);
            before = Case::none(alloc);
        } else {
            case.read(alloc, line.as_str())?;
        }
    }
    end(&rt, alloc, &case)
}

// Runs the case, if there is one, and prints its result.
fn end(rt: &impl Print, alloc: Global, case: &Case) -> Result<()> {
    match case.name() {
        Some(name) => show::ending(rt, alloc, name, &case.run(alloc)?),
        None => Ok(()),
    }
}
