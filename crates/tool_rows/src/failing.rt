//! Runs in each of which another call of the source or of the sink fails.
use crate::answer::{Answer, byte_by_byte, over};
use crate::row::Row;
use parquet_meta::FailingSource;
use std::alloc::{AllocError, Global};
use std::fmt::Write;

/// More calls than any run makes.
const MOST_CALLS: u64 = 1_000_000;

/// Which calls fail.
#[derive(Clone, Copy)]
pub(crate) enum Failing {
    Reads,
    Writes,
}

impl Failing {
    /// The answer where the call of this number fails; the first is 1.
    fn answer(
        self,
        alloc: Global,
        row: &Row,
        bytes: &[u8],
        call: u64,
    ) -> Result<Answer, AllocError> {
        let calls = vec![in alloc; call]?;
        match self {
            Failing::Reads => {
                let bytes = Vec::from_slice(alloc, bytes)?;
                over(alloc, row, &mut FailingSource::new(bytes, calls))
            }
            Failing::Writes => byte_by_byte(alloc, row, bytes, calls),
        }
    }

    /// Whether a run has written what it may: all where it ends as the whole one does, nothing behind a failed read, and a front but
    /// not all behind a failed write.
    fn is_right(self, answer: &Answer, whole: &Answer) -> bool {
        if answer.status == whole.status {
            return answer.text == whole.text;
        }
        match self {
            Failing::Reads => answer.text.is_empty(),
            Failing::Writes => {
                answer.text.len() < whole.text.len() && whole.text.starts_with(&answer.text)
            }
        }
    }
}

/// A line of the statuses of runs in each of which another call fails, from the first call on, until a run ends as the whole one does.
/// Behind a status stands an exclamation mark where that run has written what it may not.
pub(crate) fn statuses(
    alloc: Global,
    row: &Row,
    bytes: &[u8],
    failing: Failing,
    whole: &Answer,
) -> Result<String, AllocError> {
    let mut line = String::from_str(alloc, "statuses")?;
    for call in 1..=MOST_CALLS {
        let answer = failing.answer(alloc, row, bytes, call)?;
        let is_right = failing.is_right(&answer, whole);
        let mark = if is_right { "" } else { "!" };
        write!(line, " {}{mark}", answer.status.number())?;
        if answer.status == whole.status {
            break;
        }
    }
    Ok(line)
}
