// A tool, and how it runs.
ghost use Rattle.std.specs.Prelude.{[], ◌≡◌, ◌≤◌, IfOk, IsTrue, length, map};
ghost use Rattle.std.specs.Thread.{IsSync};
ghost use Rattle.cmr_io.specs.Causes.{Rose};
ghost use Rattle.cmr_io.specs.Kept.{KeepsNames};
ghost use Rattle.cmr_front.specs.Inputs.{bytes_of, input_file};
ghost use Rattle.cmr_front.specs.Outcome.{ended_report};
ghost use Rattle.cmr_front.specs.Run.{Ends, Means, RunsOver, work};
ghost use Rattle.cmr_front.specs.Status.{answer_status, failure_status};
ghost use Rattle.cmr_front.specs.Tool as tools;
ghost use Rattle.cmr_front.specs.Tool.{IsDecision, IsLawful};
ghost use Rattle.cmr_front.specs.Unread.{between};
ghost use Rattle.cmr_front.specs.declared.status.Answer.{Answer};
ghost use Rattle.cmr_front.specs.declared.status.Failure.TheVariants.{Device};

use crate::carry_out::carry_out;
use crate::input::{Input, Text, read_inputs};
use crate::outcome::{Outcome, Stop};
use cmr_base::Memory;
use cmr_io::{Shelf, Sink};
use std::alloc::Global;
use std::thread::Threads;

/// A tool with its options.
pub trait Tool<'a> {
    /// What it reads and reports, and what its answers mean.
    ghost tool: { Self → tools.Tool };

    /// The files that it reads, in order.
    fn inputs(&self, alloc: Global) -> Result<Vec<Input<'a>>, Memory>
        ensures { IfOk result (λ inputs. map input_file inputs.items ≡ (tool self.now).inputs) };

    /// Decides on the contents of these files.
    fn decide<R: Threads + Sync>(
        &self,
        rt: &R,
        alloc: Global,
        texts: &[Text],
    ) -> Result<Outcome<'a>, Stop<'a>>
        requires sync { IsSync R.row }
        requires ranges { (tool self.now).InRanges }
        requires count { length texts.now ≡ length (tool self.now).inputs }
        ensures { IsDecision ((tool self.now).Reports (map bytes_of texts.now)) result };

    /// Does nothing. Its contract is the law of the tool.
    fn lawful(&self)
        ensures { IsLawful (tool self.now) };

    /// Carries the tool from its order to its end: reads its files, decides, writes, and returns the status.
    final fn run<R: Threads + Sync, S: Shelf, O: Sink, E: Sink>(
        &self,
        rt: &R,
        alloc: Global,
        shelf: &mut S,
        out: &mut O,
        err: &mut E,
    ) -> u8
        requires ranges { (tool self.now).InRanges }
        ensures runs { RunsOver S.Shelf O.Sink E.Sink
            (work (tool self.now))
            shelf.old out.old err.old shelf.new out.new err.new result }
        ensures means { IsTrue (S.tells shelf.old) → (answer : Answer) → result ≡ answer_status answer
            → Means (tool self.now) (S.content shelf.old) answer }
        ensures no_files { (tool self.now).inputs ≡ [] → (answer : Answer) → result ≡ answer_status answer
            → Means (tool self.now) (S.content shelf.old) answer }
    {
        self.lawful();
        let ended = examine(rt, alloc, self, shelf);
        carry_out(&ended, shelf, out, err)
    }
}

fn examine<'a, R: Threads + Sync, S: Shelf, T: Tool<'a>>(
    rt: &R,
    alloc: Global,
    tool: &T,
    shelf: &mut S,
) -> Result<Outcome<'a>, Stop<'a>>
    requires { (T.tool tool.now).InRanges }
    ensures ends { Ends (work (T.tool tool.now)) (S.content shelf.old) (S.tells shelf.old)
        (S.is_calm shelf.old) (between (S.reads shelf.old) (S.reads shelf.new)) (S.failed shelf.new)
        result }
    ensures cause { (ended_report result).status ≡ failure_status Device
        → Rose (S.faults shelf.old) (S.faults shelf.new) }
    ensures kept { KeepsNames S.content S.tells S.is_calm S.room shelf.old shelf.new }
    ensures writes { S.writes shelf.new ≡ S.writes shelf.old }
    ensures later { S.faults shelf.old ≤ S.faults shelf.new }
{
    let inputs = match tool.inputs(alloc) {
        Ok(inputs) => inputs,
        Err(Memory) => return Err(Stop::Memory),
    };
    match read_inputs(alloc, shelf, &inputs) {
        Ok(texts) => tool.decide(rt, alloc, &texts),
        Err(stop) => Err(stop),
    }
}
