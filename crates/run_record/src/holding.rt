//! Whether a record holds now: comparing its answers, byte by byte, with those of a view.
ghost use Rattle.std.specs.Prelude.{◌≡◌, ◌↔◌, IfOk, IsTrue, length, map, true};
ghost use Rattle.observed.specs.declared.ask.Ask.{Ask as AnyAsk};
ghost use Rattle.observed.specs.declared.access.Answer.{Answer as AnyAnswer};
ghost use Rattle.pip_model_types.specs.declared.desc.Desc.{Desc as AnyDesc};
ghost use Rattle.run_record.specs.Digests.{IsReadBack, weak_of};
ghost use Rattle.run_record.specs.Facts.{Facts, IsRun, Sound};
ghost use Rattle.run_record.specs.Holding.{HoldsNow, IsSameWork, answer_kind, at_desc};

use bx_digest::Blob;
use observed::{Answer, Ask, View};
use std::alloc::{AllocError, Global};
use tool_run::noninterference;

// The place of an answer's kind.
fn kind_of(answer: &Answer) -> u8
    ensures { result ≡ answer_kind answer.now }
{
    match answer {
        Answer::Absent => 0,
        Answer::Content(_) => 1,
        Answer::File => 2,
        Answer::Directory => 3,
        Answer::Names(_) => 4,
        Answer::Denied => 5,
    }
}

// Whether contents are the same.
fn is_same_content(x: &Blob, y: &Blob) -> bool
    ensures { IsTrue result ↔ x.now ≡ y.now }
{
    x.bytes() == y.bytes()
}

// Whether an answer has this content.
fn has_content(answer: &Answer, bytes: &Blob) -> bool
    ensures { IsTrue result ↔ answer.now ≡ Answer.Content bytes.now }
{
    match answer {
        Answer::Content(own) => is_same_content(own, bytes),
        _ => false,
    }
}

// Whether an answer has these names.
fn has_names(answer: &Answer, names: &Blob) -> bool
    ensures { IsTrue result ↔ answer.now ≡ Answer.Names names.now }
{
    match answer {
        Answer::Names(own) => is_same_content(own, names),
        _ => false,
    }
}

// Whether answers are the same: of one kind, and with the same bytes.
pub(crate) fn is_same_answer(a: &Answer, b: &Answer) -> bool
    ensures { IsTrue result ↔ a.now ≡ b.now }
{
    match a {
        Answer::Content(bytes) => has_content(b, bytes),
        Answer::Names(names) => has_names(b, names),
        _ => {
            let mine = kind_of(a);
            let other = kind_of(b);
            mine == other
        }
    }
}

/// Whether a view answers each ask now as was stored for it, byte by byte. There are as many stored answers as asks.
pub fn answers_hold<V: View>(
    alloc: Global,
    asks: &[Ask],
    stored: &[Answer],
    view: &mut V,
) -> Result<bool, AllocError>
    requires { length stored.now ≡ length asks.now }
    ensures hold { IfOk result (λ hold. hold ≡ true ↔ stored.now ≡ map (V.answers view.old) asks.now) }
    ensures meaning { V.answers view.new ≡ V.answers view.old }
{
    'asks: for (index, ask) in asks.iter().enumerate() {
        let answer = view.ask(alloc, ask)?;
        if !is_same_answer(&stored[index], &answer) {
            return Ok(false);
        }
    }
    Ok(true)
}

/// A sound record that holds now is that of the run of the process now, whatever hash collisions there are; and
/// descriptions of the same work have one weak text, which is read back for both or for neither.
pub fn what_holds_is_run()
    ensures run { (f : Facts) (d : AnyDesc) (see : AnyAsk → AnyAnswer) → Sound f → HoldsNow d see f
        → IsRun (at_desc d f) d see }
    ensures sound { (f : Facts) (d : AnyDesc) → Sound f → IsSameWork f.desc d → Sound (at_desc d f) }
    ensures weak { (d e : AnyDesc) → IsSameWork d e → weak_of d ≡ weak_of e }
    ensures read { (d e : AnyDesc) → IsSameWork d e → IsReadBack d → IsReadBack e }
{
    noninterference();
}
