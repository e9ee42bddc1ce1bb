//! Scripts of lines that check what `total` answers and writes for texts.
use ob_cli::complaint_of;
use ob_net::Watched;
use ob_total::run_total;
use std::alloc::{AllocError, Global};
use std::process::Abort;
use std::test::Fail;

const HEADER: &'static str = "kind,ref,f1,f2,f3,f4,f5,f6\n";

/// Checks the answer for a text: `W` and the total, which is also written, or the line of a
/// refusal, and then nothing is written.
pub fn says(rt: &impl Abort, alloc: Global, text: &[u8], wanted: &str) -> Result<(), Fail> {
    let mut reader = Watched::new(text);
    let mut writer = Watched::new(Vec::new(alloc));
    let answer = run_total(alloc, &mut reader, &mut writer);
    let written = writer.into_parts().0;
    match answer {
        Ok(total) => {
            let line = format!(in alloc; "W {total}")?;
            assert!(rt; line.as_str() == wanted, "{line}");
            assert!(rt; written.as_slice().strip_suffix(b"\n") == Some(wanted.as_bytes()));
        }
        Err(stop) => {
            let line = complaint_of(alloc, &stop.stop, stop.row)?;
            assert!(rt; line.as_str() == wanted, "{line}");
            assert!(rt; written.is_empty());
        }
    }
    Ok(())
}

/// Computes the total of the header, the rows of `base` and the rows of each script line. A line is
/// some rows with `;` between them, ` => `, and the expected answer; a line with only an answer is
/// checked on `base` alone. A line that begins with `#` is a comment.
pub fn script(rt: &impl Abort, alloc: Global, base: &str, lines: &str) -> Result<(), Fail> {
    for line in lines.lines() {
        if !line.starts_with("#") {
            let (rows, wanted) = line.split_once(" => ").unwrap_or(("", line));
            let text = text_of(alloc, base, rows)?;
            says(rt, alloc, text.as_bytes(), wanted)?;
        }
    }
    Ok(())
}

fn text_of(alloc: Global, base: &str, rows: &str) -> Result<String, AllocError> {
    let mut text = String::from_str(alloc, HEADER)?;
    text.push_str(base)?;
    if !rows.is_empty() {
        for row in rows.split(';') {
            text.push_str(row)?;
            text.push_str("\n")?;
        }
    }
    Ok(text)
}
