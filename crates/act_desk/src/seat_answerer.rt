ghost use Rattle.std.specs.Prelude.{◌≡◌, ◌⊎◌, ◌≤◌, IfErr, IfOk};
ghost use mathlib.Core.List.{IsPrefix};
ghost use Rattle.wf_value.specs.Gives.{no_memory};
ghost use Rattle.act_disk.specs.Failed.{device_failed};
ghost use Rattle.act_sessions.specs.Exchange.{Submits};
ghost use Rattle.act_store.specs.Plain.{area_full, failed_earlier, history_full, old_layout};
ghost use Rattle.act_desk.specs.Answered.{unsettled};
ghost use Rattle.act_desk.specs.Begins.{IsCoveredAfter};
ghost use Rattle.act_desk.specs.Events.{covered_in, told_in};
ghost use Rattle.act_desk.specs.Settled.{HasEnded};
ghost use Rattle.act_desk.specs.Shown.{IsReplyTo};

use crate::desk::Desk;
use crate::gate::Gate;
use crate::named::Named;
use crate::seat::Seat;
use act_disk::Disk;
use act_sessions::{Answer, Transcript, Work};
use run_plan::{Command, Reply};
use std::alloc::Global;
use std::marker::Model;
use std::snapshot::Snapshot;
use std::sync::Wait;
use std::sync::ledger::Ledger;
use std::time::Clock;
use wf_value::Refusal;

/// A submitted command and its answer, as contracts see them. It takes no memory.
#[derive(Drop)]
pub(crate) struct Noted {
    command: Snapshot<Command>,
    answer: Snapshot<Result<Reply, Refusal>>,
}

/// Answers at a desk from a seat, and calls the gate before and after each command.
/// Promise (One history for all sessions): Each answer that a session gets at its seat is as `submit` says
/// By: `act_desk::seat_answerer::SeatAnswerer`, `act_sessions::Answer::ask` (`covered`, `cause`, `excess`, `seen`)
#[derive(Drop)]
pub(crate) struct SeatAnswerer<'a, D: Disk, E: Named, T: Ledger, G: Gate, R: Wait + Clock> {
    rt: &'a R,
    alloc: Global,
    desk: &'a Desk<D, E, T>,
    gate: &'a G,
    seat: Seat<E, T>,
    noted: Vec<Noted>,
}

impl<'a, D: Disk, E: Named, T: Ledger, G: Gate, R: Wait + Clock> Model
    for SeatAnswerer<'a, D, E, T, G, R> {
    ghost use Rattle.std.specs.Prelude.{map};
    ghost use Rattle.act_desk.specs.Shown.{Seated};
    ghost use Rattle.act_desk.specs.declared.seat_answerer.Noted.{Noted};

    ghost Value = { Seated };

    ghost view = { λ s. record { seat = s.seat; asked = map (λ (n : Noted). (n.command.value, n.answer.value)) s.noted.items } };
}

impl<'a, D: Disk, E: Named, T: Ledger, G: Gate, R: Wait + Clock> Answer
    for SeatAnswerer<'a, D, E, T, G, R> {
    ghost asked = { λ a. a.asked };

    /// Submits the command at the desk. A reply means what it means there (`Desk::submit`).
    fn ask(&mut self, command: Command) -> Result<Reply, Refusal>
        ensures asks { Submits self.old.asked self.new.asked command result }
        ensures reply { IfOk result (λ reply. IsReplyTo command reply) }
        ensures covered { IfOk result (λ reply. IsCoveredAfter self.old.seat.seen self.new.seat.seen
            (record { seat = self.old.seat.number; command = command; reply = reply })) }
        ensures cause { IfErr result (λ e. (e ≡ no_memory) ⊎ (e ≡ history_full) ⊎ (e ≡ old_layout) ⊎ (e ≡ area_full) ⊎ (e ≡ failed_earlier) ⊎ (e ≡ device_failed) ⊎ (e ≡ unsettled)) }
        ensures excess { IfErr result (λ e. e ≡ unsettled → covered_in self.new.seat.seen ≤ told_in self.new.seat.seen) }
        ensures seen { (self.new.seat.number ≡ self.old.seat.number) × IsPrefix self.old.seat.seen self.new.seat.seen }
    {
        self.noted.reserve(1)?;
        let session = self.seat.number();
        let call = self.noted.len() as u64;
        let asked = Snapshot::of(&command);
        self.gate.before(session, call);
        let answer = self
            .desk
            .submit(self.rt, self.alloc, &mut self.seat, command);
        self.gate.after(session, call);
        self.noted.push_reserved(Noted {
            command: asked,
            answer: Snapshot::of(&answer),
        });
        answer
    }
}

/// Holds a session at a desk until it ends.
pub(crate) fn hold<D: Disk, E: Named, T: Ledger, G: Gate, W: Work, R: Wait + Clock>(
    rt: &R,
    alloc: Global,
    desk: &Desk<D, E, T>,
    gate: &G,
    seat: Seat<E, T>,
    work: W,
) -> Transcript
    ensures { HasEnded (W.ends work) result }
{
    let mut seat_answerer = SeatAnswerer {
        rt,
        alloc,
        desk,
        gate,
        seat,
        noted: Vec::new(alloc),
    };
    match work.work(alloc, &mut seat_answerer) {
        Ok(transcript) => transcript,
        Err(fault) => fault.transcript,
    }
}
