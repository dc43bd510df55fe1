//! Two sessions over one core, and a session and an export: the second continues where the first ended, by the
//! contract of `serve`.
ghost use Rattle.std.specs.Prelude.{◌≡◌, ◌++◌, ℕ, List, Some, IfOk, map};
ghost use Rattle.std.specs.List.{concat};
ghost use Rattle.crack_row.specs.Devices.{device};
ghost use Rattle.crack_plain.specs.Plain.{PlainView};
ghost use Rattle.crack_core.specs.Steps.{bounds_from, tables_of};
ghost use Rattle.crack_session.specs.Answers.{answer_text};
ghost use Rattle.crack_session.specs.Readings.{statements};
ghost use Rattle.crack_session.specs.Sessions.{AreAnswers, first_short};
ghost use Rattle.crack_session.specs.declared.answer.Answer.{Answer};
ghost use Rattle.crack_csv.specs.Exports.{IsExported};

use crack_core::Core;
use crack_csv::export_csv;
use crack_row::{Bound, Policy, Refusal, Watched};
use crack_session::{SessionEnd, serve};
use std::alloc::Global;
use std::io::{Read, Write};
use std::process::Abort;

/// Runs one session and then another. Both have the limit and the splits that the core had before, and the second
/// has the rows and the bytes that the first left.
fn serve_both<R: Read, W: Write>(
    alloc: Global,
    core: &mut Core,
    first: &mut Watched<R>,
    second: &mut Watched<R>,
    writer: &mut Watched<W>,
) -> Result<(SessionEnd, SessionEnd), Refusal>
    ensures { IfOk result (λ ends. (bytes more out : List ℕ) →
        R.remaining (device first.old) ≡ Some bytes → R.remaining (device second.old) ≡ Some more →
        W.contents (device writer.old) ≡ Some out →
        (between : List PlainView) × (one : List Answer) × (other : List Answer)
        × AreAnswers (bounds_from core.old.limits) core.old.splits (tables_of core.old.parts) (statements bytes) one
        between
        × AreAnswers (bounds_from core.old.limits) core.old.splits between (statements more) other
        (tables_of core.new.parts)
        × (ends.0.first_short ≡ first_short one) × (ends.1.first_short ≡ first_short other)
        × (W.contents (device writer.new) ≡
        Some ((out ++ concat (map answer_text one)) ++ concat (map answer_text other)))) }
{
    match serve(alloc, core, Policy::Ripple, first, writer) {
        Ok(one) => match serve(alloc, core, Policy::Ripple, second, writer) {
            Ok(other) => Ok((one, other)),
            Err(fault) => Err(fault.refusal),
        },
        Err(fault) => Err(fault.refusal),
    }
}

/// Runs a session, and then exports the rows. The export has the splits that the core had before, and the rows that
/// the session left.
fn serve_and_export<R: Read, W: Write>(
    alloc: Global,
    core: &mut Core,
    reader: &mut Watched<R>,
    writer: &mut Watched<W>,
) -> Result<(SessionEnd, u64), Refusal>
    ensures { IfOk result (λ pair. (bytes out : List ℕ) →
        R.remaining (device reader.old) ≡ Some bytes → W.contents (device writer.old) ≡ Some out →
        (between : List PlainView) × (answers : List Answer)
        × AreAnswers (bounds_from core.old.limits) core.old.splits (tables_of core.old.parts) (statements bytes) answers
        between
        × (pair.0.first_short ≡ first_short answers)
        × IsExported (bounds_from core.old.limits) core.old.splits between pair.1 (Some (tables_of core.new.parts))
        (Some (out ++ concat (map answer_text answers))) (W.contents (device writer.new))) }
{
    match serve(alloc, core, Policy::Ripple, reader, writer) {
        Ok(end) => match export_csv(core, Policy::Ripple, writer) {
            Ok(count) => Ok((end, count)),
            Err(refusal) => Err(refusal),
        },
        Err(fault) => Err(fault.refusal),
    }
}

/// The outputs of two sessions, and of a third with an export. It has no contract, so that the test carries none.
fn tell_all(rt: &impl Abort, alloc: Global, core: &mut Core) -> Vec<u8> {
    let mut first = Watched::new(b"insert 150 6\nquit\ninsert 1 1\n".as_slice());
    let mut second = Watched::new(b"insert 50 5\ncount 0 200\n".as_slice());
    let mut third = Watched::new(b"delete 1.0\ninsert 160 7\n".as_slice());
    let mut writer = Watched::new(Vec::new(alloc));
    let both = serve_both(alloc, core, &mut first, &mut second, &mut writer);
    let last = serve_and_export(alloc, core, &mut third, &mut writer);
    assert!(rt; both.is_ok() && last.is_ok());
    writer.into_inner()
}

#[test]
fn one_core_is_served_and_then_exported(rt: HostRuntime) {
    let splits = [Bound::from_number(100)];
    let mut core = Core::open(rt.alloc(), &splits, 10).expect(&rt, "a core");
    let text = tell_all(&rt, rt.alloc(), &mut core);
    drop(core);
    let wanted = b"row 1.0\nbye\nrow 0.0\ncount 2\ngone 150 6\nrow 1.1\nkey,payload\n50,5\n160,7\n";
    assert!(rt; text.as_slice() == wanted.as_slice());
}
