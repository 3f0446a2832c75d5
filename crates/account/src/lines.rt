//! Reading the lines of an account.
ghost use Rattle.std.specs.Prelude.{◌<◌, ◌↔◌, IsTrue, IfOk, IfErr, MatchOption};
ghost use Rattle.account.specs.Lines.{texts, Passed, Spaceless, Cut, Gives, NoEntry, Entries, NotRead};
ghost use Rattle.account.specs.Texts.{WritesDay, Finds};

use crate::entry::Entry;
use crate::fault::{Fault, ReadError};
use crate::metered::Metered;
use std::alloc::Global;

/// Whether the line at this place is passed over: it is empty, begins with `#`, or is the heading in the first place.
pub fn is_passed_over<Q: Metered>(place: usize, line: &str) -> bool
    ensures { IsTrue result ↔ (Passed Q.heading place line.now) }
{
    // The first byte tells; `starts_with` would decode a character of each line.
    matches!(line.as_bytes(), [] | [b'#', ..]) || (place == 0 && line == Q::heading())
}

fn read_day(text: &str) -> Option<u8>
    ensures { Finds (WritesDay text.now) result }
{
    text.parse().ok().filter(|day| (1..=31).contains(day))
}

// What stands before and after the first space of the line.
fn cut_at_space(line: &str) -> Option<(&str, &str)>
    ensures { MatchOption result (Spaceless line.now) (λ x. Cut line.now x.0.now x.1.now) }
{
    line.split_once(' ')
}

/// The entry that the line gives, for a later day than `latest`: the day, one space, the amount.
pub fn read_entry<Q: Metered>(line: &str, latest: u8) -> Result<Entry<Q>, Fault>
    ensures given { IfOk result (Gives Q.writes line.now) }
    ensures later { IfOk result (λ e. latest < e.day) }
    ensures refused { IfErr result (NoEntry Q.writes line.now latest) }
{
    let (day, amount) = cut_at_space(line).ok_or(Fault::NoSpace)?;
    let day = read_day(day).ok_or(Fault::BadDay)?;
    let amount = Q::read(amount).ok_or(Fault::BadAmount)?;
    if day <= latest {
        return Err(Fault::NotLater);
    }
    Ok(Entry { day, amount })
}

/// The entries that the lines give, in order, each for a later day than the one before.
///
/// The heading in the first line, and lines that are empty or begin with `#`, are passed over. The first other line that
/// gives no next entry is named, and nothing is read after it.
#[tactic(auto, using(crate::proofs::Steps::reads_none, crate::proofs::Steps::reads_all))]
pub fn read_entries<Q: Metered>(heap: Global, lines: &[&str]) -> Result<Vec<Entry<Q>>, ReadError>
    ensures read { IfOk result (λ v. Entries Q.writes Q.heading (texts lines.now) v.items) }
    ensures refused { IfErr result (NotRead Q.writes Q.heading (texts lines.now)) }
{
    let mut entries = Vec::new(heap);
    let mut latest = 0;
    for (place, line) in lines.iter().enumerate() {
        if is_passed_over::<Q>(place, line) {
            continue;
        }
        let entry = read_entry(line, latest).map_err(|fault| ReadError::Line {
            number: place + 1,
            fault,
        })?;
        entries.push(entry)?;
        latest = entry.day;
    }
    Ok(entries)
}
