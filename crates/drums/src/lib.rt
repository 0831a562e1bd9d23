// A drum, lent: its opening, an event, its close.
#![tactic(auto)]

ghost use Rattle.std.specs.Prelude.{◌≡◌, true, ◌≤◌, ◌<◌, length, get_or, eqb, MatchResult};
ghost use Rattle.words.specs.Lists.{every};
ghost use Rattle.book.specs.Form.{DONE, judged};
ghost use Rattle.running.specs.Running.{expected};
ghost use Rattle.running.specs.Stages.{stage_of, nodes_of};
ghost use Rattle.plan.specs.Form.{plan_count, plan_of, plan_judged};
ghost use Rattle.reader.specs.Numbers.{answered, refusal};
ghost use Rattle.reader.specs.Machine.{SlotsHold, stack};
ghost use Rattle.reader.specs.Results.{number_of};
ghost use Rattle.drums.specs.Drums.{drum_slots, idle_drum, idle, nodes_held, parts_of, due_of, stepped, goes_on, kept, past};
ghost use Rattle.drums.specs.Drums.{opened, evented, closed, call_judged, drum_judged};
ghost use Rattle.drums.specs.Drums.{open_of, event_of, close_of, absent_of};
ghost use Rattle.drums.specs.Errors.{refused_by};
ghost use Rattle.drums.specs.Sound.{Sound};
ghost use Rattle.drums.specs.declared.DrumError.TheVariants.{Plan};
ghost use Rattle.drums.specs.declared.Stepped.{Stepped};

use book::{DONE, Judged};
use plan::{Plan, PlanError};
use reader::{LONG, Reading, Refusal, Standing, refuse, take_event};

// The answers' numbers.
pub const NO_DRUM: u32 = 17;

pub const IDLE: u32 = 18;

pub const STALE: u32 = 33;

// The most drums of a board; a drum's slots, its most events, its most records, the most that is told to be due.
pub const BOARD_DRUMS: u32 = 32;

pub const DRUM_SLOTS: u32 = 64;

pub const MOST_EVENTS: u32 = 65535;

pub const MOST_RECORDS: u32 = 67042305;

pub const MOST_DUE: usize = 65535;

// A drum: its holding slots, how many parts it holds, its events and records so far, the events still due.
#[repr(C)]
#[derive(Clone, Copy)]
pub struct Drum {
    pub slots: [u32; 64],
    pub held: u32,
    pub events: u32,
    pub records: u32,
    pub due: u32,
}

// Why a call is refused, which changes nothing: the plan, no drum with the number, an idle drum, a stale one.
#[derive(Clone, Copy, PartialEq, Eq)]
pub enum DrumError {
    Plan(PlanError),
    NoDrum,
    Idle,
    Stale,
}

impl From<PlanError> for DrumError {
    ghost from_gives = { λ error refused. refused ≡ Plan error };

    fn from(error: PlanError) -> DrumError {
        DrumError::Plan(error)
    }
}

impl From<DrumError> for Reading {
    ghost from_gives = { λ error reading. reading ≡ answered (refused_by error).number (refused_by error).place 0 0 };

    fn from(error: DrumError) -> Reading {
        match error {
            DrumError::Plan(error) => {
                let judged = Judged::from(error);
                answer(judged.number, judged.place, 0)
            }
            DrumError::NoDrum => answer(NO_DRUM, 0, 0),
            DrumError::Idle => answer(IDLE, 0, 0),
            DrumError::Stale => answer(STALE, 0, 0),
        }
    }
}

// What a call answers, and how the drum then stands.
#[derive(Clone, Copy)]
pub struct Stepped {
    pub reading: Reading,
    pub drum: Drum,
}

// An answer outside any stage, where no kind was expected.
fn answer(number: u32, place: u32, records: u32) -> Reading
    ensures { result ≡ answered number place records 0 }
{
    Reading {
        number,
        place,
        records,
        label: 0,
        expected: 0,
    }
}

// The answer of a call that makes the drum idle.
fn stop(reading: Reading) -> Stepped
    ensures { result ≡ stepped reading idle_drum }
{
    Stepped {
        reading,
        drum: Drum {
            slots: [0; 64],
            held: 0,
            events: 0,
            records: 0,
            due: 0,
        },
    }
}

// A refusal that changes nothing.
fn keep(error: DrumError, d: &Drum) -> Stepped
    ensures { result ≡ kept (refused_by error) d.now }
{
    Stepped {
        reading: Reading::from(error),
        drum: *d,
    }
}

// What every call tests: the plan, then the drum's number.
fn check_call<'a>(plan: &'a [u8], number: u32) -> Result<Plan<'a>, DrumError>
    ensures { MatchResult result
        (λ passed. (passed ≡ plan.now) × (call_judged plan.now number ≡ judged DONE 0) × ((plan_judged plan.now).number ≡ DONE))
        (λ error. call_judged plan.now number ≡ refused_by error) }
{
    let judged = Plan::read(plan)?;
    if BOARD_DRUMS <= number {
        return Err(DrumError::NoDrum);
    }
    Ok(judged)
}

// Whether all slots are zero.
fn all_zero(slots: &[u32]) -> bool
    ensures { result ≡ every (λ i. eqb (get_or slots.now i 0) 0) (length slots.now) }
{
    slots.iter().all(|slot| *slot == 0)
}

// Whether a drum is idle.
fn is_idle(d: &Drum) -> bool
    ensures { result ≡ idle d.now }
{
    if !((d.held == 0) & (d.events == 0) & (d.records == 0) & (d.due == 0)) {
        return false;
    }
    all_zero(&d.slots)
}

// Whether each of so many slots has a node below a count of nodes.
fn nodes_held(nodes: usize, slots: &[u32], held: usize) -> bool
    requires { held ≤ length slots.now }
    ensures { (result ≡ nodes_held nodes slots.now held)
        × (result ≡ true → SlotsHold nodes (length slots.now) slots.now held) }
{
    slots[..held]
        .iter()
        .all(|slot| (*slot as usize % 65536) < nodes)
}

// What an event and a close test of the drum.
fn check_drum(plan: &Plan, d: &Drum) -> Result<(), DrumError>
    ensures { MatchResult result
        (λ _. (drum_judged (plan_count plan.now) d.now ≡ judged DONE 0) × Sound (plan_count plan.now) d.now)
        (λ error. drum_judged (plan_count plan.now) d.now ≡ refused_by error) }
{
    if is_idle(d) {
        return Err(DrumError::Idle);
    }
    if (DRUM_SLOTS < d.held) | (MOST_EVENTS < d.events) | (MOST_RECORDS < d.records) {
        return Err(DrumError::Stale);
    }
    if !nodes_held(plan.nodes(), &d.slots, d.held as usize) {
        return Err(DrumError::Stale);
    }
    Ok(())
}

// The plan of an event or a close, past the tests of the call and of the drum.
fn check_open<'a>(plan: &'a [u8], d: &Drum, number: u32) -> Result<Plan<'a>, DrumError>
    ensures { MatchResult result
        (λ passed. (passed ≡ plan.now) × ((plan_judged plan.now).number ≡ DONE) × (Sound (plan_count plan.now) d.now)
        × ((rest : Stepped) → rest
        ≡ past (call_judged plan.now number) d.now (past (drum_judged (plan_count plan.now) d.now) d.now rest)))
        (λ error. (rest : Stepped) → kept (refused_by error) d.now
        ≡ past (call_judged plan.now number) d.now (past (drum_judged (plan_count plan.now) d.now) d.now rest)) }
{
    let judged = check_call(plan, number)?;
    check_drum(&judged, d)?;
    Ok(judged)
}

// The events still due for the parts held in slots, cut at 65,535.
fn due_sum(plan: &Plan, slots: &[u32], held: usize) -> u32
    requires { SlotsHold (plan_count plan.now) (length slots.now) slots.now held }
    ensures { result ≡ due_of (plan_of plan.now) (stack slots.now held) }
{
    let mut sum = 0;
    for slot in &slots[..held] {
        sum = (plan.due(*slot as usize % 65536) + sum).min(MOST_DUE);
    }
    sum as u32
}

// A drum that goes on, with the parts held in these slots.
fn go_on(plan: &Plan, events: u32, standing: Standing, slots: &mut [u32; 64]) -> Stepped
    requires { (SlotsHold (plan_count plan.now) drum_slots slots.old standing.count) × (standing.written < 4294967296) }
    ensures { result ≡ goes_on (plan_of plan.now) events standing.written (stack slots.old standing.count) }
{
    slots[standing.count..].fill(0);
    let records = standing.written as u32;
    let due = due_sum(plan, slots, standing.count);
    Stepped {
        reading: answer(DONE, events, records),
        drum: Drum {
            slots: *slots,
            held: standing.count as u32,
            events,
            records,
            due,
        },
    }
}

// An opening.
fn start(plan: &Plan) -> Stepped
    ensures { result ≡ opened (plan_of plan.now) }
{
    let mut slots = [0; 64];
    slots[0] = plan.start() as u32;
    let standing = Standing {
        count: 1,
        written: 0,
    };
    go_on(plan, 0, standing, &mut slots)
}

// A refusal of an event, by the drum as it stood before.
fn refuse_event(plan: &Plan, d: &Drum, why: Refusal) -> Reading
    requires { Sound (plan_count plan.now) d.now }
    ensures { result ≡ refusal (number_of why) d.now.events (stage_of (parts_of d.now))
        (expected (plan_of plan.now) (nodes_of (parts_of d.now))) }
{
    let number = u32::from(why);
    if why.tells_kinds() {
        return refuse(plan, number, d.events as usize, d.held as usize, &d.slots);
    }
    answer(number, d.events, 0)
}

// An event for a drum that is open and not stale.
fn step(plan: &Plan, d: &Drum, kind: usize) -> Stepped
    requires { ((plan_judged plan.now).number ≡ DONE) × (Sound (plan_count plan.now) d.now) }
    ensures { result ≡ evented (plan_of plan.now) d.now kind }
{
    if d.events == MOST_EVENTS {
        return stop(answer(LONG, 0, 0));
    }
    let mut slots = d.slots;
    let mut none: [u16; 0] = [];
    let standing = Standing {
        count: d.held as usize,
        written: d.records as usize,
    };
    let taken = match take_event(plan, kind, standing, &mut slots, &mut none) {
        Ok(taken) => taken,
        Err(refused) => return stop(refuse_event(plan, d, refused.refusal)),
    };
    go_on(plan, d.events + 1, taken, &mut slots)
}

// A close of a drum that is open and not stale.
fn finish(plan: &Plan, d: &Drum) -> Stepped
    requires { Sound (plan_count plan.now) d.now }
    ensures { result ≡ closed (plan_of plan.now) d.now }
{
    let mut none: [u16; 0] = [];
    let standing = Standing {
        count: d.held as usize,
        written: d.records as usize,
    };
    stop(reader::close(plan, d.events as usize, standing, &d.slots, &mut none))
}

// Opens a drum, for any bytes, drum and number; the kind is not looked at.
pub fn open(plan: &[u8], d: &Drum, number: u32, kind: u8) -> Stepped
    ensures { result ≡ open_of plan.now d.now number kind }
{
    let judged = match check_call(plan, number) {
        Ok(judged) => judged,
        Err(error) => return keep(error, d),
    };
    start(&judged)
}

// Gives a drum an event.
pub fn event(plan: &[u8], d: &Drum, number: u32, kind: u8) -> Stepped
    ensures { result ≡ event_of plan.now d.now number kind }
{
    let judged = match check_open(plan, d, number) {
        Ok(judged) => judged,
        Err(error) => return keep(error, d),
    };
    step(&judged, d, usize::from(kind))
}

// Closes a drum; the kind is not looked at.
pub fn close(plan: &[u8], d: &Drum, number: u32, kind: u8) -> Stepped
    ensures { result ≡ close_of plan.now d.now number kind }
{
    let judged = match check_open(plan, d, number) {
        Ok(judged) => judged,
        Err(error) => return keep(error, d),
    };
    finish(&judged, d)
}

// What a call answers for a drum that is not on the list.
pub fn absent(plan: &[u8]) -> Reading
    ensures { result ≡ absent_of plan.now }
{
    match Plan::read(plan) {
        Ok(_) => Reading::from(DrumError::NoDrum),
        Err(error) => Reading::from(DrumError::Plan(error)),
    }
}
