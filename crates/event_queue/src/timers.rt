//! The timers of a document.

ghost use Rattle.std.specs.Prelude.{◌≡◌, ◌+◌, ◌<◌, ◌≤◌, ◌^◌, ◌∷◌, [], IsTrue, ◌↔◌, ℕ, true, All, IfSome, IfNone, IsSome, MatchOption, Some, None, length, is_some, map, option_map, position, remove, slice_index_or};
ghost use Rattle.event_queue.specs.Timers.{TimersState, after_firing, firings_of, first_due, goes_on as spec_goes_on, has_number, has_place, is_due as spec_is_due, is_firing as spec_is_firing, least_moment, lesser as spec_lesser, no_timers, after_settling, timer_of, timer_set, with_fired, with_settled, with_timer, without_timer};
ghost use Rattle.event_queue.specs.devices.KeptTimers.{IsChanged, seen};
ghost use Rattle.event_queue.specs.declared.timers.KeptTimer.{KeptTimer as KeptTimerSeen};

use arrayvec::ArrayVec;
use bml_bytes::Text;
use std::marker::Model;

/// The most timers that stand; this project's own limit.
pub const TIMER_LIMIT: usize = 32;

// The greatest number of a timer, which scripts read as a number of 32 bits with a sign.
const LAST_NUMBER: u32 = 2_147_483_647;

// A timer. A place in which none stands has no function.
#[derive(Default, Drop)]
struct KeptTimer {
    number: u32,
    function: Option<Text>,
    moment: u64,
    interval: u32,
    left: Option<u32>,
    out: u32,
}

impl KeptTimer {
    // Whether a firing is left.
    fn is_firing(&self) -> bool
        ensures { result ≡ spec_is_firing self.now.left }
    {
        match self.left {
            None => true,
            Some(left) => left > 0,
        }
    }

    // Whether it has a firing left whose moment has come.
    fn is_due(&self, moment: u64) -> bool
        ensures { result ≡ spec_is_due moment (seen self.now) }
    {
        self.is_firing() && self.moment <= moment
    }

    // Whether a firing is left, or an event of it is out.
    fn goes_on(&self) -> bool
        ensures { result ≡ spec_goes_on (seen self.now) }
    {
        self.is_firing() || self.out > 0
    }

    // It fires.
    fn fire(&mut self)
        requires moment { self.old.moment < 2 ^ 62 }
        ensures fired { seen self.new ≡ after_firing (seen self.old) }
        ensures function { self.new.function ≡ self.old.function }
    {
        self.moment += u64::from(self.interval);
        if let Some(left) = self.left {
            self.left = Some(left.saturating_sub(1));
        }
        self.out = self.out.saturating_add(1);
    }

    // One of its events was dispatched or lost.
    fn settle(&mut self)
        ensures settled { seen self.new ≡ after_settling (seen self.old) }
        ensures function { self.new.function ≡ self.old.function }
    {
        self.out = self.out.saturating_sub(1);
    }
}

/// The timers of a document, in ascending number, and the number of the next one. They take no memory.
#[derive(Drop)]
pub struct Timers {
    timers: ArrayVec<KeptTimer, TIMER_LIMIT>,
    next: u32,
}

impl Model for Timers {
    ghost use Rattle.std.specs.Prelude.{map};
    ghost use Rattle.event_queue.specs.Timers.{TimersState};
    ghost use Rattle.event_queue.specs.devices.KeptTimers.{AreKept, seen};

    ghost Value = { TimersState };

    ghost view = { λ timers. record {
      timers = map seen timers.timers.items;
      next = timers.next;
    } };

    ghost invariant = { λ timers. AreKept timers.timers.items timers.next };
}

impl Timers {
    /// No timer stands, and the next one gets the number 1.
    pub fn new() -> Timers
        ensures { result ≡ no_timers }
    {
        Timers {
            timers: ArrayVec::new(),
            next: 1,
        }
    }

    /// Sets a timer that calls this function `turns` times, 0 without end, one interval of
    /// milliseconds after the other, and answers its number: None exactly where 32 timers stand or
    /// the last number was given.
    pub fn set(&mut self, function: Text, interval: u32, turns: u32, now: u64) -> Option<u32>
        requires interval { 100 ≤ interval }
        requires now { now < 2 ^ 62 }
        ensures some { IsSome result ↔ IsTrue (has_place self.old) }
        ensures number { IfSome result (λ number. number ≡ self.old.next) }
        ensures set { IfSome result (λ number. self.new
            ≡ with_timer (timer_set number function interval turns now) self.old) }
        ensures refused { IfNone result (self.new ≡ self.old) }
    {
        if self.timers.is_full() || self.next > LAST_NUMBER {
            return None;
        }
        let number = self.next;
        self.timers.push(KeptTimer {
            number,
            function: Some(function),
            moment: now + u64::from(interval),
            interval,
            left: firings(turns),
            out: 0,
        });
        self.next = number + 1;
        Some(number)
    }

    /// Ends the timer of this number, and answers whether there was one.
    pub fn clear(&mut self, number: u32) -> bool
        ensures there { result ≡ is_some (timer_of number self.old) }
        ensures timers { self.new ≡ without_timer number self.old }
    {
        match place_of(self.timers.as_slice(), number) {
            None => false,
            Some(place) => {
                remove_at(&mut self.timers, place);
                true
            }
        }
    }

    /// Ends all timers. Their numbers aren't used again.
    pub fn drop_all(&mut self)
        ensures { self.new ≡ record self.old { timers = [] } }
    {
        self.timers.clear();
    }

    /// The least moment at which a timer fires, and None exactly where none has a firing left.
    pub fn next_due(&self) -> Option<u64>
        ensures { result ≡ least_moment self.now.timers }
    {
        least_of(self.timers.as_slice())
    }

    /// Fires the first timer that is due at the moment, and answers its number: None exactly where
    /// none is due.
    pub fn fire(&mut self, moment: u64) -> Option<u32>
        requires moment { moment < 2 ^ 62 }
        ensures number { result ≡ first_due moment self.old }
        ensures fired { IsSome result → self.new ≡ with_fired moment self.old }
        ensures none { IfNone result (self.new ≡ self.old) }
    {
        match due_place(self.timers.as_slice(), moment) {
            None => None,
            Some(place) => Some(fire_at(&mut self.timers, place)),
        }
    }

    /// What the timer of this number calls, and None exactly where no timer has it.
    pub fn function(&self, number: u32) -> Option<&Text>
        ensures { MatchOption result (timer_of number self.now ≡ None) (λ function.
            option_map (λ timer. timer.function) (timer_of number self.now)
            ≡ Some function.now) }
    {
        match place_of(self.timers.as_slice(), number) {
            None => None,
            Some(place) => self.timers.as_slice()[place].function.as_ref(),
        }
    }

    /// One event of the timer of this number was taken from the queue or was lost. The timer ends
    /// there where no firing is left and no other event of it is out. Answers whether a timer has
    /// the number.
    pub fn settle(&mut self, number: u32) -> bool
        ensures there { result ≡ is_some (timer_of number self.old) }
        ensures timers { self.new ≡ with_settled number self.old }
    {
        match place_of(self.timers.as_slice(), number) {
            None => false,
            Some(place) => {
                if !settle_at(&mut self.timers, place) {
                    remove_at(&mut self.timers, place);
                }
                true
            }
        }
    }
}

// 0 firings are firings without end.
fn firings(turns: u32) -> Option<u32>
    ensures { result ≡ firings_of turns }
{
    if turns == 0 { None } else { Some(turns) }
}

// The timer at a place fires, whose number is answered.
fn fire_at(timers: &mut ArrayVec<KeptTimer, TIMER_LIMIT>, place: usize) -> u32
    requires place { place < length timers.old.items }
    requires moment { (d : KeptTimerSeen)
        → (slice_index_or timers.old.items place d).moment < 2 ^ 62 }
    ensures number { (d : KeptTimerSeen)
        → result ≡ (slice_index_or timers.old.items place d).number }
    ensures changed { IsChanged after_firing place timers.old.items timers.new.items }
{
    let timer = &mut timers.as_mut_slice()[place];
    timer.fire();
    timer.number
}

// One event of the timer at a place was dispatched or lost: answers whether it goes on.
fn settle_at(timers: &mut ArrayVec<KeptTimer, TIMER_LIMIT>, place: usize) -> bool
    requires place { place < length timers.old.items }
    ensures goes_on { (d : KeptTimerSeen) → result
        ≡ spec_goes_on (after_settling (seen (slice_index_or timers.old.items place d))) }
    ensures changed { IsChanged after_settling place timers.old.items timers.new.items }
{
    let timer = &mut timers.as_mut_slice()[place];
    timer.settle();
    timer.goes_on()
}

// Removes the timer at a place.
fn remove_at(timers: &mut ArrayVec<KeptTimer, TIMER_LIMIT>, place: usize)
    requires place { place < length timers.old.items }
    ensures { timers.new.items ≡ remove timers.old.items place }
{
    timers.remove(place);
}

// The place of the timer of a number.
fn place_of(timers: &[KeptTimer], number: u32) -> Option<usize>
    ensures { result ≡ position (λ timer. has_number number (seen timer)) timers.now }
{
    timers.iter().position(|timer| timer.number == number)
}

// The place of the first timer that is due.
fn due_place(timers: &[KeptTimer], moment: u64) -> Option<usize>
    ensures { result ≡ position (λ timer. spec_is_due moment (seen timer)) timers.now }
{
    timers.iter().position(|timer| timer.is_due(moment))
}

// The least moment at which one of these fires.
fn least_of(timers: &[KeptTimer]) -> Option<u64>
    ensures { result ≡ least_moment (map seen timers.now) }
{
    let mut least = None;
    'timers: for behind in 0..timers.len() {
        let timer = &timers[timers.len() - 1 - behind];
        if timer.is_firing() {
            least = Some(lesser(timer.moment, least));
        }
    }
    least
}

// The lesser of two moments, of which the second may be absent.
fn lesser(moment: u64, other: Option<u64>) -> u64
    ensures { Some result ≡ spec_lesser moment other }
{
    match other {
        Some(other) if other < moment => other,
        _ => moment,
    }
}
