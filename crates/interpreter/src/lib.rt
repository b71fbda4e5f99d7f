// One line of a script: its call is made on the two stores, and what it answers is said.
#![tactic(auto)]

ghost use Rattle.std.specs.Prelude.{◌≡◌};
ghost use Rattle.model.specs.Runs.{look as looks};
ghost use Rattle.prefix.specs.Bits.{bits};
ghost use Rattle.pairs.specs.Pairs.{SoundPair};
ghost use Rattle.answers.specs.declared.Said.TheVariants.{Refused};
ghost use Rattle.interpreter.specs.Lines.{said_of, CallAnswered, LineAnswered, call_of};

use answers::Said;
use lookup::Answer;
use script::Line;
use sizes::refusal::Refusal;
use tallies::Tallies;
use updates::{Action, Update};

// What a line is answered, and the tallies after it.
#[derive(Clone, Copy, Debug, PartialEq, Eq)]
pub struct Answered {
    pub said: Said,
    pub tallies: Tallies,
}

pub fn answer_line(table: &mut [u32], cache: &mut [u32], t: Tallies, line: Line) -> Answered
    ensures { LineAnswered table.old cache.old table.new cache.new t line result }
{
    // Either update goes on to one call: made in both arms, it took nearly 5 in 100 more instructions a line (callgrind).
    let u = match line {
        Line::Announce(address, length, hop) => {
            Update::new(address, length, Action::Announce(hop))
        }
        Line::Withdraw(address, length) => Update::new(address, length, Action::Withdraw),
        Line::Look(address) => return look_up(table, cache, t, address),
        Line::Bad => return uncounted(Said::Bad, t),
    };
    update(table, cache, t, u)
}

// What is said where no tally moves: of a bad line, and of a refusal.
fn uncounted(said: Said, t: Tallies) -> Answered
    ensures { result ≡ record { said = said; tallies = t } }
{
    Answered { said, tallies: t }
}

// A refusal is said by its number, whatever the stores were.
fn refused<E: Refusal>(refusal: E, t: Tallies) -> Answered
    ensures { result ≡ record { said = Refused (E.number refusal); tallies = t } }
{
    uncounted(Said::Refused(refusal.number()), t)
}

fn look_up(table: &[u32], cache: &mut [u32], t: Tallies, address: u32) -> Answered
    ensures { SoundPair table.now cache.old → CallAnswered table.now cache.old table.now cache.new t (looks (bits 32 address)) result }
{
    match lookup::look_up(table, cache, t, address) {
        Ok(looked) => Answered {
            said: said_of(looked.answer),
            tallies: looked.tallies,
        },
        Err(unsound) => refused(unsound, t),
    }
}

// No From: neither type is this crate's.
fn said_of(answer: Answer) -> Said
    ensures { result ≡ said_of answer }
{
    match answer {
        Answer::Hit(hop) => Said::Hit(hop),
        Answer::Miss(hop, address, length, examined) => Said::Miss(hop, address, length, examined),
        Answer::Drop(examined) => Said::Drop(examined),
    }
}

fn update(table: &mut [u32], cache: &mut [u32], t: Tallies, u: Update) -> Answered
    ensures { SoundPair table.old cache.old → CallAnswered table.old cache.old table.new cache.new t (call_of u) result }
{
    match refresh::update_pair(table, cache, t, u) {
        Ok(updated) => Answered {
            said: Said::Done(updated.removed, updated.changed),
            tallies: updated.tallies,
        },
        Err(refusal) => refused(refusal, t),
    }
}
