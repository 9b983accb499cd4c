// A passive set that comes back: the rounds since then repeat up to the limit, so whole periods are counted and not run.
ghost use Rattle.std.specs.Prelude.{◌≡◌, ℕ, ◌+◌, ◌-◌, ◌*◌, ◌<◌, ◌≤◌, length};
ghost use Rattle.numbers.specs.Numbers.{nth};
ghost use Rattle.workspace.specs.Readings.{nums};
ghost use Rattle.nnls.specs.inner.Memory.{bits, front, Repeated, MayLook, LookedBack, Noted, Placed, SoughtFor, SoughtRound, Recorded, MayFinish, CameBack};
ghost use Rattle.nnls_passive.specs.inner.Places.{NNLS_WORDS};

// Rounds and factorings so far, how many sets are remembered, and the two numbers of the set from round 4 on.
#[derive(Clone, Copy)]
pub struct Course {
    pub past: usize,
    pub factorings: usize,
    pub held: usize,
    pub low: usize,
    pub high: usize,
}

// Rounds and factorings.
#[derive(Clone, Copy)]
pub struct Counts {
    pub past: usize,
    pub factorings: usize,
}

// Where a set is put down, and how many are remembered then.
#[derive(Clone, Copy)]
pub struct Place {
    pub index: usize,
    pub held: usize,
}

// How many columns the first number takes.
fn front_of(n: usize) -> usize
    ensures { result ≡ front n }
{
    n.min(33)
}

// The marks of the c columns from o on, as the binary digits of a number.
fn digits(iw: &[u32], o: usize, c: usize) -> usize
    requires { (c ≤ 33) × (o + c ≤ 66) × (NNLS_WORDS ≤ length iw.now) × ((i : ℕ) → i < c → nth iw.now (o + i) ≤ 1) }
    ensures { result ≡ bits iw.now o c }
{
    let mut total = 0usize;
    for i in 0..c {
        total = 2 * total + iw[o + i] as usize;
    }
    total
}

// Past rounds and f factorings, and as many whole periods of d rounds and e factorings as k rounds allow.
fn repeat(past: usize, f: usize, d: usize, e: usize, k: usize) -> Counts
    requires { (k ≤ 198) × (0 < d) × (past ≤ k) × (d ≤ 198) × (f ≤ 132 * past) × (e ≤ 132 * d) }
    ensures { Repeated d e past f k result }
{
    let mut p = past;
    let mut g = f;
    while p + d <= k {
        p += d;
        g += e;
    }
    Counts {
        past: p,
        factorings: g,
    }
}

// Which of the sets that are remembered has these two numbers; how many they are if none has.
fn seek(memory: &[usize], held: usize, low: usize, high: usize) -> usize
    requires { (held ≤ 16) × (80 ≤ length memory.now) }
    ensures { SoughtFor memory.now held low high result }
{
    for i in 0..held {
        if memory[5 * i] == low {
            if memory[5 * i + 1] == high {
                return i;
            }
        }
    }
    held
}

// Where the set after the given rounds is put down: behind the others; or where there are 16, in the place of the first
// if that is as old as a third of the rounds, else of the others in turn.
fn next_place(memory: &[usize], held: usize, past: usize) -> Place
    requires { (held ≤ 16) × (past ≤ 198) × (80 ≤ length memory.now) × (0 < held → nth memory.now 2 ≤ past) }
    ensures { Placed held result }
{
    if held < 16 {
        return Place {
            index: held,
            held: held + 1,
        };
    }
    if 3 * memory[2] <= 2 * past {
        return Place { index: 0, held };
    }
    Place {
        index: 1 + past % 15,
        held,
    }
}

// The place of the set that was put down after the given rounds; how many are remembered if none was.
fn seek_round(memory: &[usize], held: usize, since: usize) -> usize
    requires { (held ≤ 16) × (80 ≤ length memory.now) }
    ensures { SoughtRound memory.now held since result }
{
    for i in 0..held {
        if memory[5 * i + 2] == since {
            return i;
        }
    }
    held
}

// Puts a set down at a place: its two numbers, the rounds and factorings before the round that begins with it, and the
// factorings after the pass of that round.
fn put_down(
    memory: &mut [usize],
    i: usize,
    low: usize,
    high: usize,
    past: usize,
    f: usize,
    g: usize,
)
    requires { (i < 16) × (80 ≤ length memory.old) }
    ensures { Noted memory.old memory.new i low high past f g }
{
    memory[5 * i] = low;
    memory[5 * i + 1] = high;
    memory[5 * i + 2] = past;
    memory[5 * i + 3] = f;
    memory[5 * i + 4] = g;
}

// Puts the set down with which a round began, whose pass came to g factorings; the first are not worth it. The answer
// is how many are remembered.
fn remember(
    memory: &mut [usize],
    held: usize,
    low: usize,
    high: usize,
    past: usize,
    f: usize,
    g: usize,
) -> usize
    requires { (held ≤ 16) × (past ≤ 198) × (80 ≤ length memory.old) × (0 < held → nth memory.old 2 ≤ past) }
    ensures { Recorded held low high past f g memory.old memory.new result }
{
    if past < 4 {
        return held;
    }
    let at = next_place(memory, held, past);
    put_down(memory, at.index, low, high, past, f, g);
    at.held
}

// Set i is back after past rounds and f factorings: whole periods are counted, and where the set is remembered to which
// the rounds lead that are left, its pass is the last, and keeps a column: `Err` with the counts after it. Else all are
// forgotten.
fn finish(
    memory: &[usize],
    held: usize,
    i: usize,
    low: usize,
    high: usize,
    past: usize,
    f: usize,
    k: usize,
) -> Result<Course, Counts>
    requires { MayFinish memory.now held i past f k }
    ensures { CameBack memory.now held i low high past f k result }
{
    let r = repeat(past, f, past - memory[5 * i + 2], f - memory[5 * i + 3], k);
    let t = seek_round(memory, held, memory[5 * i + 2] + (k - r.past));
    if t < held {
        return Err(Counts {
            past: k,
            factorings: r.factorings + memory[5 * t + 4] - memory[5 * i + 3],
        });
    }
    Ok(Course {
        past: r.past,
        factorings: r.factorings,
        held: 0,
        low,
        high,
    })
}

// One round more, whose pass came to g factorings and which came to f: the set with which it began is remembered, and
// where a set that is remembered came back the rounds that are left are counted. The first rounds are not worth a look.
pub fn look_back(
    iw: &[u32],
    n: usize,
    k: usize,
    memory: &mut [usize],
    c: Course,
    g: usize,
    f: usize,
) -> Result<Course, Counts>
    requires { MayLook n k c g f iw.now memory.old }
    ensures { LookedBack n k (nums 0 n iw.now) c g f memory.old memory.new result }
{
    let held = remember(memory, c.held, c.low, c.high, c.past, c.factorings, g);
    let past = c.past + 1;
    if past < 4 {
        return Ok(Course {
            past,
            factorings: f,
            held,
            low: 0,
            high: 0,
        });
    }
    let h = front_of(n);
    let low = digits(iw, 0, h);
    let high = digits(iw, h, n - h);
    let i = seek(memory, held, low, high);
    if i < held {
        return finish(memory, held, i, low, high, past, f, k);
    }
    Ok(Course {
        past,
        factorings: f,
        held,
        low,
        high,
    })
}
