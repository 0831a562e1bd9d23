// The reader: runs a plan over a run of events, numbers 8 to 16.
#![tactic(auto)]

ghost use Rattle.std.specs.Prelude.{ℕ, ◌≡◌, true, false, ◌≤◌, ◌<◌, length, set, MatchResult};
ghost use Rattle.book.specs.Form.{DONE, judged};
ghost use Rattle.running.specs.Running.{with_slots, row_first, expected, tells};
ghost use Rattle.running.specs.Stages.{inside, staged_reading, stage_of, nodes_of};
ghost use Rattle.words.specs.Words.{zeros};
ghost use Rattle.plan.specs.Form.{plan_count, plan_kinds, plan_of, plan_judged};
ghost use Rattle.reader.specs.Machine.{SlotsHold, after, stopped_at, slot_of, stack};
ghost use Rattle.reader.specs.Machine.{walk_of, event_of, finish_of, close_of, pass_of};
ghost use Rattle.reader.specs.Numbers.{answered, told};
ghost use Rattle.reader.specs.Ready.{Ready};
ghost use Rattle.reader.specs.Reads.{Reads, outcome, outcome_of, run_of, read_of};
ghost use Rattle.reader.specs.Results.{number_of, spot_of, stop_of, barred_by};
ghost use Rattle.reader.specs.Settled.{settled_of};
ghost use Rattle.reader.specs.Reads.{bare};
ghost use Rattle.reader.specs.declared.Bar.TheVariants.{Plan};

use book::{DONE, Judged};
use kinds::single;
use plan::{Plan, PlanError, Step};

// The answers' numbers.
pub const LONG: u32 = 10;

pub const DEEP: u32 = 11;

pub const UNKNOWN: u32 = 12;

pub const UNEXPECTED: u32 = 13;

pub const END: u32 = 14;

pub const RUNAWAY: u32 = 15;

pub const NO_ROOM: u32 = 16;

// The most events of a run.
pub const MOST_EVENTS: usize = 65535;

// What is added to a node's number in an empty record.
pub const EMPTY: usize = 32768;

// How the machine stands: the parts held, the records written.
#[derive(Clone, Copy)]
pub struct Standing {
    pub count: usize,
    pub written: usize,
}

// Why a run is refused: no slot is free; the kind is unknown; no part takes the event; a walk met a zero, which only a
// forged plan has; the end came too early; a walk came to no end.
#[derive(Clone, Copy, PartialEq, Eq)]
pub enum Refusal {
    Deep,
    Unknown,
    Unexpected,
    Zero,
    End,
    Runaway,
}

// Whether a refusal with a number tells what was expected: 12, 13 and 14 do.
pub fn tells_kinds(number: u32) -> bool
    ensures { result ≡ tells number }
{
    UNKNOWN <= number && number <= END
}

impl Refusal {
    // Whether it tells what was expected, by its number.
    pub fn tells_kinds(self) -> bool
        ensures { result ≡ tells (number_of self) }
    {
        tells_kinds(u32::from(self))
    }
}

impl From<Refusal> for u32 {
    ghost from_gives = { λ refusal number. number ≡ number_of refusal };

    fn from(refusal: Refusal) -> u32 {
        match refusal {
            Refusal::Deep => DEEP,
            Refusal::Unknown => UNKNOWN,
            Refusal::Unexpected | Refusal::Zero => UNEXPECTED,
            Refusal::End => END,
            Refusal::Runaway => RUNAWAY,
        }
    }
}

// An event or the end refused, and how the machine then stands.
#[derive(Clone, Copy)]
pub struct Refused {
    pub refusal: Refusal,
    pub standing: Standing,
}

// A run refused at a place, and how the machine stood before the event refused.
#[derive(Clone, Copy)]
pub struct Stopped {
    pub refusal: Refusal,
    pub at: usize,
    pub standing: Standing,
}

// What stands against a reading before any event: the plan, too many events, no slot.
#[derive(Clone, Copy, PartialEq, Eq)]
pub enum Bar {
    Plan(PlanError),
    Long,
    Deep,
}

impl From<PlanError> for Bar {
    ghost from_gives = { λ error bar. bar ≡ Plan error };

    fn from(error: PlanError) -> Bar {
        Bar::Plan(error)
    }
}

// What a reading answers.
#[repr(C)]
#[derive(Clone, Copy)]
pub struct Reading {
    pub number: u32,
    pub place: u32,
    pub records: u32,
    pub label: u32,
    pub expected: u64,
}

// An answer outside any stage.
fn plain(number: u32, place: u32, records: u32) -> Reading
    ensures { result ≡ answered number place records 0 }
{
    Reading {
        number,
        place,
        records,
        label: 0,
        expected: 0,
    }
}

impl From<Bar> for Reading {
    ghost from_gives = { λ bar reading. reading ≡ answered (barred_by bar).number (barred_by bar).place 0 0 };

    fn from(bar: Bar) -> Reading {
        match bar {
            Bar::Plan(error) => {
                let judged = Judged::from(error);
                plain(judged.number, judged.place, 0)
            }
            Bar::Long => plain(LONG, 0, 0),
            Bar::Deep => plain(DEEP, 0, 0),
        }
    }
}

// A holding slot: a node in the low half, a label in the high half.
// Both in one number, as the C interface's slots hold them.
fn slot_of(node: usize, label: usize) -> u32
    requires { (node < 65536) × (label < 65536) }
    ensures { result ≡ slot_of node label }
{
    (label * 65536 + node) as u32
}

// The label inside a node, by its tag and the label around it.
fn inner(tag: usize, outer: usize) -> usize
    ensures { result ≡ inside tag outer }
{
    if tag == 0 { outer } else { tag }
}

// The label of the part held last; 0 where none is held.
fn stage_of(held: &[u32], count: usize) -> u32
    requires { count ≤ length held.now }
    ensures { result ≡ stage_of (stack held.now count) }
{
    if count == 0 {
        return 0;
    }
    held[count - 1] / 65536
}

// Writes a record, where the tree has room for it.
fn note(tree: &mut [u16], at: usize, value: usize)
    requires { value < 65536 }
    ensures { tree.new ≡ set tree.old at value }
{
    if at < tree.len() {
        tree[at] = value as u16;
    }
}

// The walk from a node, with a label around it: each visited node writes a record, then its cell says how to go on.
// The slots and their count stand apart, since the C interface lends slots of any length.
#[inline(always)]
fn walk(
    plan: &Plan,
    kind: usize,
    from: usize,
    outer: usize,
    mut standing: Standing,
    held: &mut [u32],
    tree: &mut [u16],
) -> Result<Standing, Refused>
    requires { (Ready plan.now standing.count standing.written held.old)
        × (kind < plan_kinds plan.now) × (from < plan_count plan.now) × (outer < 65536) }
    ensures { after (spot_of false result) held.new tree.new
        ≡ walk_of (plan_of plan.now) kind (plan_count plan.now) from outer standing.count standing.written
        held.old tree.old }
{
    let mut node = from;
    let mut label = outer;
    for _ in 0..plan.nodes() {
        note(tree, standing.written, node);
        standing.written += 1;
        match plan.step_at(node, kind) {
            Step::Take => {
                return Ok(standing);
            }
            Step::Left => {
                label = inner(plan.tag(node), label);
                node = plan.left(node);
            }
            Step::Hold => {
                if held.len() <= standing.count {
                    return Err(Refused {
                        refusal: Refusal::Deep,
                        standing,
                    });
                }
                held[standing.count] = slot_of(plan.right(node), label);
                standing.count += 1;
                node = plan.left(node);
            }
            Step::Skip => {
                note(tree, standing.written, plan.left(node) + EMPTY);
                standing.written += 1;
                node = plan.right(node);
            }
            Step::Right => {
                node = plan.right(node);
            }
            Step::Refuse => {
                return Err(Refused {
                    refusal: Refusal::Zero,
                    standing,
                });
            }
        }
    }
    Err(Refused {
        refusal: Refusal::Runaway,
        standing,
    })
}

// One event: the part held last is taken off, until one walks or the event is refused.
#[inline(always)]
fn take_parts(
    plan: &Plan,
    kind: usize,
    mut standing: Standing,
    held: &mut [u32],
    tree: &mut [u16],
) -> Result<Standing, Refused>
    requires { Ready plan.now standing.count standing.written held.old }
    ensures { after (spot_of false result) held.new tree.new
        ≡ event_of (plan_of plan.now) kind standing.count standing.written
        held.old tree.old }
{
    if plan.kinds() <= kind {
        return Err(Refused {
            refusal: Refusal::Unknown,
            standing,
        });
    }
    while 0 < standing.count {
        standing.count -= 1;
        let slot = held[standing.count] as usize;
        let node = slot % 65536;
        if plan.takes(node, kind) {
            return walk(plan, kind, node, slot / 65536, standing, held, tree);
        }
        if !plan.is_nullable(node) {
            return Err(Refused {
                refusal: Refusal::Unexpected,
                standing,
            });
        }
        note(tree, standing.written, node + EMPTY);
        standing.written += 1;
    }
    Err(Refused {
        refusal: Refusal::Unexpected,
        standing,
    })
}

// One event, by a plan of the step's own, whose fields stay in registers where the step writes: 1.2 times as fast.
pub fn take_event(
    plan: &Plan,
    kind: usize,
    standing: Standing,
    held: &mut [u32],
    tree: &mut [u16],
) -> Result<Standing, Refused>
    requires { Ready plan.now standing.count standing.written held.old }
    ensures { after (spot_of false result) held.new tree.new
        ≡ event_of (plan_of plan.now) kind standing.count standing.written
        held.old tree.old }
{
    take_parts(&plan.own(), kind, standing, held, tree)
}

// The end: all held parts are taken off in turn.
fn finish(
    plan: &Plan,
    mut standing: Standing,
    held: &[u32],
    tree: &mut [u16],
) -> Result<Standing, Refused>
    requires { Ready plan.now standing.count standing.written held.now }
    ensures { after (spot_of true result) held.now tree.new
        ≡ finish_of (plan_of plan.now) standing.count standing.written held.now tree.old }
{
    while 0 < standing.count {
        standing.count -= 1;
        let node = held[standing.count] as usize % 65536;
        if !plan.is_nullable(node) {
            return Err(Refused {
                refusal: Refusal::End,
                standing,
            });
        }
        note(tree, standing.written, node + EMPTY);
        standing.written += 1;
    }
    Ok(standing)
}

// The kinds of a node's row whose cells are not 0.
fn row_first(plan: &Plan, node: usize) -> u64
    requires { node < plan_count plan.now }
    ensures { result ≡ row_first (plan_of plan.now) node (plan_kinds plan.now) }
{
    let mut first = 0;
    for kind in 0..plan.kinds() {
        if plan.takes(node, kind) {
            first |= single(kind);
        }
    }
    first
}

// The kinds that may come next where so many parts are held: FIRST of the part held last, and while parts are nullable,
// of the next.
fn expected_by(plan: &Plan, count: usize, held: &[u32]) -> u64
    requires { SlotsHold (plan_count plan.now) (length held.now) held.now count }
    ensures { result
        ≡ expected (plan_of plan.now) (nodes_of (stack held.now count)) }
{
    let mut set = 0;
    let mut parts = count;
    while 0 < parts {
        parts -= 1;
        let part = held[parts] as usize % 65536;
        set |= row_first(plan, part);
        if !plan.is_nullable(part) {
            return set;
        }
    }
    set
}

// A refusal at a place that tells the stage and what was expected, by the parts held before anything was taken off.
pub fn refuse(plan: &Plan, number: u32, at: usize, count: usize, held: &[u32]) -> Reading
    requires { (SlotsHold (plan_count plan.now) (length held.now) held.now count)
        × (at < 65536) }
    ensures { result ≡ told number at (stage_of (stack held.now count))
        (expected (plan_of plan.now) (nodes_of (stack held.now count))) }
{
    Reading {
        number,
        place: at as u32,
        records: 0,
        label: stage_of(held, count),
        expected: expected_by(plan, count, held),
    }
}

// The end of a run, at a place.
pub fn close(plan: &Plan, at: usize, standing: Standing, held: &[u32], tree: &mut [u16]) -> Reading
    requires { (Ready plan.now standing.count standing.written held.now) × (at < 65536) }
    ensures { outcome result tree.new
        ≡ close_of (plan_of plan.now) at standing.count standing.written
        held.now tree.old }
{
    match finish(plan, standing, held, tree) {
        Ok(finished) => plain(DONE, at as u32, finished.written as u32),
        Err(refused) => refuse(plan, u32::from(refused.refusal), at, standing.count, held),
    }
}

// The events of a run, from its beginning until one is refused.
fn pass_events(
    plan: &Plan,
    run: &[u8],
    held: &mut [u32],
    tree: &mut [u16],
) -> Result<Standing, Stopped>
    requires { (length run.now ≤ 65535) × (0 < length held.old) }
    ensures { (stopped_at (stop_of (length run.now) result) held.new tree.new
        ≡ pass_of (plan_of plan.now) 0 run.now 1 0
        (set held.old 0 (slot_of (plan_of plan.now).start 0)) tree.old)
        × ((stop_of (length run.now) result).intact ≡ true
        → Ready plan.now (stop_of (length run.now) result).count (stop_of (length run.now) result).written held.new)
        × ((plan_judged plan.now).number ≡ DONE) }
{
    held[0] = slot_of(plan.start(), 0);
    let mut standing = Standing {
        count: 1,
        written: 0,
    };
    for (at, kind) in run.iter().enumerate() {
        match take_event(plan, usize::from(*kind), standing, held, tree) {
            Ok(taken) => standing = taken,
            Err(refused) => {
                return Err(Stopped {
                    refusal: refused.refusal,
                    at,
                    standing,
                });
            }
        }
    }
    Ok(standing)
}

// The run: its events, then the end or the refusal. Where a walk met a zero, which only a forged plan has, it has
// written over the parts held before: the run is read again up to that event.
fn events(plan: &Plan, run: &[u8], held: &mut [u32], tree: &mut [u16]) -> Reading
    requires { (length run.now ≤ 65535) × (0 < length held.old) }
    ensures { settled_of result tree.new
        ≡ outcome_of (plan_of plan.now) (length run.now) (length tree.old)
        (staged_reading (plan_of plan.now) (with_slots (length held.old))
        run.now) }
{
    let stop = match pass_events(plan, run, held, tree) {
        Ok(standing) => return close(plan, run.len(), standing, held, tree),
        Err(stop) => stop,
    };
    match stop.refusal {
        Refusal::Deep | Refusal::Runaway => plain(u32::from(stop.refusal), stop.at as u32, 0),
        Refusal::Zero => {
            let again = pass_events(plan, &run[..stop.at], held, &mut tree[..0]).unwrap();
            refuse(plan, u32::from(stop.refusal), stop.at, again.count, held)
        }
        _ => refuse(
            plan,
            u32::from(stop.refusal),
            stop.at,
            stop.standing.count,
            held,
        ),
    }
}

// The answer settled: the tree's rest is cleared, or all of it at a refusal or where it has no room for the records.
// Its number is tested, since `close` answers with the C interface's `Reading`, to the board too.
fn settle(answer: Reading, tree: &mut [u16]) -> Reading
    ensures { outcome result tree.new ≡ settled_of answer tree.old }
{
    if answer.number != DONE {
        tree.fill(0);
        return answer;
    }
    let records = answer.records as usize;
    if tree.len() < records {
        tree.fill(0);
        return plain(NO_ROOM, 0, answer.records);
    }
    tree[records..].fill(0);
    answer
}

// The plan to read by, or what stands against reading a run with so many slots.
fn check<'a>(plan: &'a [u8], run: &[u8], slots: usize) -> Result<Plan<'a>, Bar>
    ensures { MatchResult result
        (λ passed. (passed ≡ plan.now) × ((plan_judged plan.now).number ≡ DONE) × (length run.now ≤ 65535) × (0 < slots))
        (λ bar. (room : ℕ) → read_of plan.now run.now slots room
        ≡ bare room (answered (barred_by bar).number (barred_by bar).place 0 0)) }
{
    let judged = Plan::read(plan)?;
    if MOST_EVENTS < run.len() {
        return Err(Bar::Long);
    }
    if slots == 0 {
        return Err(Bar::Deep);
    }
    Ok(judged)
}

// The answer, by each test in turn, with the records in the tree.
fn answer(plan: &[u8], run: &[u8], held: &mut [u32], tree: &mut [u16]) -> Reading
    ensures { outcome result tree.new
        ≡ read_of plan.now run.now (length held.old) (length tree.old) }
{
    match check(plan, run, held.len()) {
        Ok(judged) => settle(events(&judged, run, held, tree), tree),
        Err(bar) => {
            tree.fill(0);
            Reading::from(bar)
        }
    }
}

// Reads a run by a plan: the answer, with the records in the tree; the slots are zero after every call.
pub fn read(plan: &[u8], run: &[u8], held: &mut [u32], tree: &mut [u16]) -> Reading
    ensures { Reads plan.now run.now held.old tree.old
        result held.new tree.new }
{
    let reading = answer(plan, run, held, tree);
    held.fill(0);
    reading
}
