//! Compares rows of C texts with what the check of types says of them. A row is one of these:
//!
//!     "TEXT" => typed                    the text keeps all rules
//!     "TEXT" => NUMBER START-END PART    the first rule that it breaks, and the bytes of the construct that breaks it, which are PART
//!
//! Behind ` ; ` stands what gcc says, which `tools/type_rows.py` compares. `unquoted` of `test_rows` says how texts are written.
#![tactic(auto)]

mod answers;

use answers::{answer, line_wanted};
use std::io;
use test_rows::{Row, Tally};

fn main(rt: HostRuntime) -> io::Result<()> {
    let mut tally = Tally::new();
    for line in rt.lines(rt.alloc()) {
        let line = line?;
        if let Some(row) = Row::of(line.as_str()) {
            let found = answer(rt.alloc(), row.question)?;
            let wanted = line_wanted(row.answer, found.as_str());
            if tally.differs(wanted, found.as_str()) {
                println!(rt; "{}: {found}, not {wanted}", row.question)?;
            }
        }
    }
    println!(rt; "{tally}")
}
