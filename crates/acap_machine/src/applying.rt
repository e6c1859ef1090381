//! `apply`: puts in place what was made ready. It never fails.
ghost use Rattle.std.specs.Prelude.{◌≡◌};
ghost use Rattle.acap_machine.specs.Readied.{IsReadied, HasRoom, StaysKept, after_effect};

use crate::effect::Effect;
use crate::ready::Ready;
use crate::state::State;
use acap_commands::Reply;
use acap_entries::Seat;

impl State {
    /// Puts in place what was made ready, and gives its reply. The state is the one for which it was made ready. Takes no memory
    /// and cannot fail.
    pub fn apply(&mut self, ready: Ready) -> Reply
        requires { IsReadied ready self.old }
        ensures machine { self.new.machine ≡ after_effect ready.effect ready.seat self.old.machine }
        ensures reply { result ≡ ready.reply }
        ensures work { self.new.work ≡ ready.work }
    {
        let Ready {
            seat,
            effect,
            reply,
            work,
        } = ready;
        self.perform(seat, effect);
        self.work = work;
        reply
    }

    // Puts something in place at a seat, in the room that there is.
    fn perform(&mut self, seat: Seat, effect: Effect)
        requires room { HasRoom effect seat self.old.kept }
        requires sound { StaysKept effect seat self.old }
        ensures { self.new.machine ≡ after_effect effect seat self.old.machine }
    {
        match effect {
            Effect::Nothing => {}
            Effect::Enters(user) => self.views.take_seat(seat, user),
            Effect::Changes(change, links, delta) => {
                self.tree.commit(change);
                self.index.commit(links);
                self.views.on_change(delta);
            }
            Effect::Makes(new) => self.views.put_context(seat, new),
            Effect::Frees(name) => {
                let _ = self.views.free(seat, &name);
            }
            Effect::Tells(names, last) => self.views.tell(seat, names.as_slice(), last),
            Effect::Drains => self.views.drop_told(seat),
            Effect::Leaves => self.views.leave(seat),
        }
    }
}
