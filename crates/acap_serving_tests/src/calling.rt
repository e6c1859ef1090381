//! Tests of calls through the passes of one served machine.
use crate::calls::{Act, CallRow, Closing, Heard, ROWS};
use crate::stage::{Play, is_true};
use acap_commands::{Command, Event, Fault};
use acap_entries::{Moment, Seat, UserName};
use acap_grammar::{parse, render};
use acap_lexer::{Lexed, Lexer, Mode};
use acap_locked::{
    Answer, CloseFault, HistoryEntry, Item, Pass, PassContents, Report, Served, Site,
};
use std::alloc::{AllocGlobal, Global};
use std::io;
use std::sync::Wait;
use std::sync::ledger::Ledger;

// The command in a line.
fn command_of(alloc: Global, line: &[u8]) -> Option<Command> {
    let mut lexer = Lexer::new(alloc);
    lexer.push(line).ok()?;
    match lexer.next(Mode::Command) {
        Ok(Lexed::Line(tokens)) => parse(alloc, &tokens).ok(),
        _ => None,
    }
}

// The event of an act.
fn event_of(alloc: Global, act: Act) -> Option<Event> {
    match act {
        Act::Enters(user) => Some(Event::Enter(UserName::read(alloc, user).ok()?)),
        Act::Sends(line) => Some(Event::Command(command_of(alloc, line)?)),
        Act::Drains(_) => Some(Event::Drain),
        Act::Leaves => Some(Event::Leave),
    }
}

// The moment of all calls.
fn zero() -> Moment {
    Moment::new(0).unwrap_or(Moment::first())
}

// One call through a pass.
fn call<S: Site, L: Ledger, R: Wait + AllocGlobal>(
    rt: &R,
    served: &Served<S, L>,
    pass: &mut Pass<S>,
    act: Act,
) -> Result<Answer, Fault> {
    match event_of(rt.alloc(), act) {
        Some(event) => served.call(rt, pass, event, zero()),
        None => Err(Fault::Memory),
    }
}

/// Makes one call through a pass, and says whether it wasn't refused.
pub(crate) fn does<S: Site, L: Ledger, R: Wait + AllocGlobal>(
    rt: &R,
    served: &Served<S, L>,
    pass: &mut Pass<S>,
    act: Act,
) -> bool {
    call(rt, served, pass, act).is_ok()
}

// Makes `times` calls, and says whether none was refused.
fn does_all<S: Site, L: Ledger, R: Wait + AllocGlobal>(
    rt: &R,
    served: &Served<S, L>,
    pass: &mut Pass<S>,
    act: Act,
    times: u64,
) -> bool {
    let mut all = true;
    for _ in 0..times {
        all = does(rt, served, pass, act) & all;
    }
    all
}

// Whether an answer stands at that place, rings those seats and prints that text.
fn is_reply(
    alloc: Global,
    answer: &Answer,
    epoch: u64,
    place: u64,
    rings: u64,
    text: &[u8],
) -> bool {
    let mut printed = Vec::new(alloc);
    let done = render(&answer.reply, &mut printed).is_ok();
    let here = answer.epoch == epoch && answer.place == place && answer.rings == rings;
    done && here && printed.as_slice() == text
}

// Whether this is the answer that it should be.
fn is_heard(alloc: Global, answered: &Result<Answer, Fault>, heard: Heard) -> bool {
    match heard {
        Heard::Reply(epoch, place, rings, text) => match answered {
            Ok(answer) => is_reply(alloc, answer, epoch, place, rings, text),
            Err(_) => false,
        },
        Heard::Refused(wanted) => match answered {
            Ok(_) => false,
            Err(fault) => *fault == wanted,
        },
    }
}

// Whether a call is answered as it should be: of several drains the last one, and none of the others is refused.
fn is_answered<S: Site, L: Ledger, R: Wait + AllocGlobal>(
    rt: &R,
    served: &Served<S, L>,
    pass: &mut Pass<S>,
    act: Act,
    heard: Heard,
) -> bool {
    let before = match act {
        Act::Drains(times) => does_all(rt, served, pass, act, times.saturating_sub(1)),
        _ => true,
    };
    let answered = call(rt, served, pass, act);
    is_heard(rt.alloc(), &answered, heard) && before
}

// Whether all calls of a row are answered as they should be.
fn are_heard<S: Site, L: Ledger, R: Wait + AllocGlobal>(
    rt: &R,
    served: &Served<S, L>,
    passes: &mut [Pass<S>],
    row: &CallRow,
) -> bool {
    for (number, act, heard) in row.calls {
        let Some(pass) = passes.get_mut(*number) else {
            return false;
        };
        if !is_answered(rt, served, pass, *act, *heard) {
            return false;
        }
    }
    true
}

// Whether the history has an item of a seat at its place.
fn is_entry(held: &PassContents, item: &Item, history: &[HistoryEntry]) -> bool {
    let place = usize::try_from(item.place).unwrap_or(usize::MAX);
    match history.get(place) {
        Some(entry) => entry.seat == held.seat && entry.exchange.equals(&item.exchange),
        None => false,
    }
}

// Whether the pass of a seat holds what is wanted of that seat, and nothing where nothing is.
fn is_held(report: &Report, held: &PassContents, wanted: &[(u8, usize, u64)]) -> bool {
    let seat = held.seat.number();
    let (count, retired) = match wanted.iter().find(|one| one.0 == seat) {
        Some((_, count, retired)) => (*count, *retired),
        None => (0, 0),
    };
    let history = report.history.as_slice();
    let items = held.items.as_slice();
    held.items.len() == count
        && held.retired == retired
        && report.retired.as_slice().get(usize::from(seat)) == Some(&retired)
        && items.iter().all(|item| is_entry(held, item, history))
}

// Whether a report has this epoch, this many calls, and what is wanted of each pass.
fn is_report(report: &Report, epoch: u64, calls: usize, wanted: &[(u8, usize, u64)]) -> bool {
    let passes = report.passes.as_slice();
    report.epoch == epoch
        && report.history.len() == calls
        && passes.len() == 64
        && passes.iter().all(|held| is_held(report, held, wanted))
}

// Whether a fault says that the pass of that seat is missing.
fn is_missing(fault: CloseFault, number: u8) -> bool {
    match Seat::new(number) {
        Some(seat) => fault == CloseFault::PassMissing(seat),
        None => false,
    }
}

// Whether closing reports what it should.
fn is_closed(closed: &Result<Report, CloseFault>, closing: Closing) -> bool {
    match closing {
        Closing::Report(epoch, calls, wanted) => match closed {
            Ok(report) => is_report(report, epoch, calls, wanted),
            Err(_) => false,
        },
        Closing::Missing(number) => match closed {
            Ok(_) => false,
            Err(fault) => is_missing(*fault, number),
        },
    }
}

impl<R: Wait + AllocGlobal> Play<R> for CallRow {
    fn comes_true<S: Site, L: Ledger>(
        &self,
        rt: &R,
        served: Served<S, L>,
        passes: Vec<Pass<S>>,
    ) -> io::Result<bool> {
        let mut passes = passes;
        let heard = are_heard(rt, &served, &mut passes, self);
        if let Some(number) = self.without {
            if number < passes.len() {
                drop(passes.remove(number));
            }
        }
        Ok(heard && is_closed(&served.close(passes), self.closing))
    }
}

#[test]
fn calls_are_answered_and_the_history_has_them(rt: HostRuntime) {
    for row in &ROWS {
        assert!(rt; is_true(&rt, row), "{}", row.name);
    }
}
