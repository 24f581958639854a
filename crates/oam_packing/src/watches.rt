// The watch that stands beside an end.
ghost use Rattle.std.specs.Prelude.{◌≡◌};
ghost use Rattle.oam_packing.specs.Watches.{frames_octets, seconds_octets, stamp_octets, frames_from, seconds_from, watch_octets, watch_from, is_watch};

use crate::parts::{Part, octets_at};
use link_windows::{Watch, Window};

// The octets of each window, and where the second one and the stamp begin.
const FRAMES_LENGTH: usize = 24;

const SECONDS_LENGTH: usize = 16;

const STAMP_LENGTH: usize = 3;

const SECONDS: usize = FRAMES_LENGTH;

const STAMP: usize = SECONDS + SECONDS_LENGTH;

pub(crate) const LENGTH: usize = STAMP + STAMP_LENGTH;

#[tactic(auto, unfolding(crate::specs::Watches::frames_octets))]
fn frames_octets(w: Window) -> [u8; FRAMES_LENGTH]
    ensures { result ≡ frames_octets w }
{
    let [a, b] = w.length.to_be_bytes();
    let [c, d, e, f] = w.threshold.to_be_bytes();
    let [g, h] = w.at.to_be_bytes();
    let [i, j, k, l] = w.errors.to_be_bytes();
    let [m, n, o, p, q, r, s, t] = w.total.to_be_bytes();
    let [u, v, x, y] = w.events.to_be_bytes();
    [
        a, b, c, d, e, f, g, h, i, j, k, l, m, n, o, p, q, r, s, t, u, v, x, y,
    ]
}

// Of a window of seconds threshold and errors are at most its length, and the total is counted modulo 2^32.
#[tactic(auto, unfolding(crate::specs::Watches::seconds_octets))]
fn seconds_octets(w: Window) -> [u8; SECONDS_LENGTH]
    ensures { result ≡ seconds_octets w }
{
    let [a, b] = w.length.to_be_bytes();
    let [_, _, c, d] = w.threshold.to_be_bytes();
    let [e, f] = w.at.to_be_bytes();
    let [_, _, g, h] = w.errors.to_be_bytes();
    let [_, _, _, _, i, j, k, l] = w.total.to_be_bytes();
    let [m, n, o, p] = w.events.to_be_bytes();
    [a, b, c, d, e, f, g, h, i, j, k, l, m, n, o, p]
}

#[tactic(auto, unfolding(crate::specs::Watches::stamp_octets))]
fn stamp_octets(stamp: u16, bad: bool) -> [u8; STAMP_LENGTH]
    ensures { result ≡ stamp_octets stamp bad }
{
    let [a, b] = stamp.to_be_bytes();
    [a, b, u8::from(bad)]
}

#[tactic(auto, unfolding(crate::specs::Watches::frames_from))]
fn frames_from(kept: &[u8; FRAMES_LENGTH]) -> Window
    ensures { result ≡ frames_from kept.now }
{
    let &[
        a,
        b,
        c,
        d,
        e,
        f,
        g,
        h,
        i,
        j,
        k,
        l,
        m,
        n,
        o,
        p,
        q,
        r,
        s,
        t,
        u,
        v,
        x,
        y,
    ] = kept;
    Window {
        length: u16::from_be_bytes([a, b]),
        threshold: u32::from_be_bytes([c, d, e, f]),
        at: u16::from_be_bytes([g, h]),
        errors: u32::from_be_bytes([i, j, k, l]),
        total: u64::from_be_bytes([m, n, o, p, q, r, s, t]),
        events: u32::from_be_bytes([u, v, x, y]),
    }
}

#[tactic(auto, unfolding(crate::specs::Watches::seconds_from))]
fn seconds_from(kept: &[u8; SECONDS_LENGTH]) -> Window
    ensures { result ≡ seconds_from kept.now }
{
    let &[a, b, c, d, e, f, g, h, i, j, k, l, m, n, o, p] = kept;
    Window {
        length: u16::from_be_bytes([a, b]),
        threshold: u32::from_be_bytes([0, 0, c, d]),
        at: u16::from_be_bytes([e, f]),
        errors: u32::from_be_bytes([0, 0, g, h]),
        total: u64::from(u32::from_be_bytes([i, j, k, l])),
        events: u32::from_be_bytes([m, n, o, p]),
    }
}

impl Part<LENGTH> for Watch {
    ghost octets = { watch_octets };

    ghost from = { watch_from };

    ghost fitting = { is_watch };

    #[tactic(auto, unfolding(crate::specs::Watches::watch_octets))]
    fn put(self, out: &mut [u8], at: usize) {
        octets::put_octets(out, at, &frames_octets(self.frames()));
        octets::put_octets(out, at + SECONDS, &seconds_octets(self.seconds()));
        octets::put_octets(out, at + STAMP, &stamp_octets(self.stamp(), self.bad()));
    }

    #[tactic(auto, unfolding(crate::specs::Watches::watch_from))]
    fn from_octets(kept: &[u8; LENGTH]) -> Watch {
        let &[a, b, bad] = octets_at::<STAMP_LENGTH>(kept, STAMP);
        Watch::of(
            frames_from(octets_at(kept, 0)),
            seconds_from(octets_at(kept, SECONDS)),
            u16::from_be_bytes([a, b]),
            bad == 1,
        )
    }

    // All but the last one are those of numbers.
    fn are_octets(kept: &[u8; LENGTH]) -> bool {
        let &[_, _, bad] = octets_at::<STAMP_LENGTH>(kept, STAMP);
        bad <= 1
    }
}
