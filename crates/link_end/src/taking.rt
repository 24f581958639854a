// What a received frame makes of an end: what is kept of it, the moves, and the body's action.
ghost use Rattle.std.specs.Prelude.{◌≡◌};
ghost use Rattle.link_end.specs.Taking.{known, role_after, last_after, obeyed, acted, shown_of, as_taken, taken_whole};

use crate::{Action, Effect, End, Heard, News};
use frame_body::Information;
use link_loopback::Role;

impl Action {
    // The role after the body's action, by whether it was a command that is obeyed.
    #[tactic(auto, unfolding(crate::specs::Taking::role_after))]
    fn role_after(self, local: Option<Information>, obeyed: bool, role: Role) -> Role
        ensures { result ≡ role_after local self obeyed role }
    {
        match self {
            Action::Inform => role.after_local(local),
            Action::Command(command) => role.after_command(command, obeyed),
            Action::Notify(_) | Action::Other => role,
        }
    }

    // The last event number received, after a body in SEND_ANY.
    fn last_after(self, last: Option<u16>) -> Option<u16>
        ensures { result ≡ last_after self last }
    {
        match self {
            Action::Notify(number) => Some(number),
            Action::Inform | Action::Command(_) | Action::Other => last,
        }
    }
}

impl Heard {
    // What is shown of a frame in SEND_ANY: a notification's events, where its number is no repeat of the last.
    #[tactic(auto, unfolding(crate::specs::Taking::shown_of, crate::specs::Taking::shown_events, crate::specs::Taking::is_repeat))]
    fn show(&self, last: Option<u16>) -> News
        ensures { result ≡ shown_of self.now.header self.now.action last }
    {
        match self.action {
            Action::Notify(number) if last != Some(number) => News::Events(self.header, number),
            _ => News::Frame(self.header),
        }
    }
}

impl End {
    // The lost-link count, the kept field and the peer record.
    fn know(&mut self, heard: &Heard)
        ensures { self.new ≡ known heard.now self.old }
    {
        self.peer.kept = link_peer::kept_from(heard.header.flags, self.peer.kept);
        self.peer.held = heard.local.or(self.peer.held);
        self.link.lost = 0;
    }

    // Whether the body is a loopback command that is obeyed.
    #[tactic(auto, unfolding(crate::specs::Taking::obeyed, crate::specs::Taking::obeys_command))]
    fn obeys(&self, heard: &Heard) -> bool
        ensures { result ≡ obeyed heard.now.header.source heard.now.action self.now }
    {
        let higher = heard.header.source < self.settings.source;
        let configuration = self.settings.configuration;
        let held = self.peer.held;
        matches!(heard.action, Action::Command(command) if self.role.obeys(command, higher, configuration, held))
    }

    // The body's action.
    #[tactic(auto, unfolding(crate::specs::Taking::acted))]
    fn act(&mut self, heard: &Heard, obeyed: bool)
        ensures { self.new ≡ acted heard.now obeyed self.old }
    {
        self.role = heard.action.role_after(heard.local, obeyed, self.role);
        self.peer.last = heard.action.last_after(self.peer.last);
    }

    // One frame that is heard, with what is owed then.
    pub fn take(&mut self, heard: &Heard) -> Effect
        ensures { as_taken self.new result ≡ taken_whole heard.now self.old }
    {
        let was = self.before();
        let header_alone = Effect {
            obeyed: false,
            shown: News::Frame(heard.header),
        };
        if !self.link.up {
            self.owe(was, false);
            return header_alone;
        }
        self.know(heard);
        let standing = self.discovery();
        self.settle(standing);
        if !standing.is_any() {
            self.owe_at(was, false, standing);
            return header_alone;
        }
        let shown = heard.show(self.peer.last);
        let obeyed = self.obeys(heard);
        self.act(heard, obeyed);
        self.owe_at(was, obeyed, standing);
        Effect { obeyed, shown }
    }
}
