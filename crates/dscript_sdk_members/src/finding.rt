//! Texts in other texts, in time that is linear in both together.
ghost use Rattle.std.specs.Prelude.{◌≡◌, ◌+◌, ◌≤◌, IfOk, IfSome, length};
ghost use Rattle.dscript_sdk_members.specs.FirstPlaces.{first_place};
ghost use Rattle.dscript_sdk_members.specs.Periods.{ArePeriods};

use bx_tree::Memory;
use std::alloc::Global;

/// The least period of the first byte of a text, of its first two bytes, and so on.
pub(crate) fn periods_of(alloc: Global, text: &[u8]) -> Result<Vec<usize>, Memory>
    ensures periods { IfOk result (λ periods. ArePeriods text.now periods.items) }
    ensures each { IfOk result (λ periods. length periods.items ≡ length text.now) }
{
    let mut periods = Vec::new(alloc);
    if text.is_empty() {
        return Ok(periods);
    }
    periods.push(1)?;
    let mut place = 1;
    let mut known = 0;
    'bytes: while place + known < text.len() {
        if text[place + known] == text[known] {
            periods.push(place)?;
            known += 1;
        } else if known == 0 {
            place += 1;
            periods.push(place)?;
        } else {
            let shift = periods[known - 1];
            place += shift;
            known -= shift;
        }
    }
    Ok(periods)
}

/// The first place of a text in another.
pub(crate) fn find_text(text: &[u8], other: &[u8], periods: &[usize]) -> Option<usize>
    requires periods { ArePeriods other.now periods.now }
    requires each { length periods.now ≡ length other.now }
    ensures place { result ≡ first_place other.now text.now }
    ensures within { IfSome result (λ place. place + length other.now ≤ length text.now) }
{
    let mut place = 0;
    let mut known = 0;
    'places: while known < other.len() {
        if place + known >= text.len() {
            return None;
        }
        if text[place + known] == other[known] {
            known += 1;
        } else if known == 0 {
            place += 1;
        } else {
            let period = periods[known - 1];
            place += period;
            known -= period;
        }
    }
    Some(place)
}
