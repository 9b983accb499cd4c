// Decisions on numbers, each by value.
ghost use Rattle.std.specs.Prelude.{◌≡◌, ◌&&◌, ◌≤◌};
ghost use Rattle.numbers.specs.Numbers.{at};
ghost use Rattle.suspect.specs.Suspect.{weight, is_finite, new_spread, test_of, square_of, tie_of, mark_of, limits, agrees, explains, still_of};

// The 95 % limits of chi-square, from 0 to 16 degrees of freedom.
const LIMITS: [f64; 17] = [
    0.0, 3.841, 5.991, 7.815, 9.488, 11.07, 12.592, 14.067, 15.507, 16.919, 18.307, 19.675, 21.026,
    22.362, 23.685, 24.996, 26.296,
];

// 2^-20: a smaller share is none, and a volume of so few spreads is zero.
const TINY: f64 = 0.00000095367431640625;

// The limit of r degrees of freedom.
fn limit(r: usize) -> f64
    requires { r ≤ 16 }
    ensures { result ≡ at limits r }
{
    LIMITS[r]
}

// A coefficient in spreads; 0 for a meter that stands still.
pub fn weight_of(z: u8, s: f64, c: f64) -> f64
    ensures { result ≡ weight z s c }
{
    if z == 1 {
        return 0.0;
    }
    s * c
}

// Neither NaN nor infinite.
pub fn is_finite(x: f64) -> bool
    ensures { result ≡ is_finite x }
{
    -1.0 / 0.0 < x && x < 1.0 / 0.0
}

// The spread of the corrected value, where t is what no balance sees of the meter.
pub fn new_spread(z: u8, s: f64, t: f64) -> f64
    ensures { result ≡ new_spread z s t }
{
    if z == 1 {
        return 0.0;
    }
    if t == 0.0 {
        return 0.0;
    }
    let x = numbers::sqrt(t);
    s * x
}

// The correction p, in spreads, over its own deviation, where h is the share.
pub fn test_of(h: f64, p: f64) -> f64
    ensures { result ≡ test_of h p }
{
    if h < TINY {
        return 0.0;
    }
    let x = numbers::sqrt(h);
    p / x
}

// A test's square; -1 for a meter that is unchecked.
pub fn square_of(h: f64, t: f64) -> f64
    ensures { result ≡ square_of h t }
{
    if h < TINY {
        return -1.0;
    }
    t * t
}

// Two meters of shares h and g, with p seen of both together, are not told apart.
pub fn tie_of(h: f64, g: f64, p: f64) -> bool
    ensures { result ≡ tie_of h g p }
{
    if h < TINY {
        return false;
    }
    if g < TINY {
        return false;
    }
    0.99 * (h * g) <= p * p
}

// All meters agree; within says whether every test is within 3, finite whether every gap is finite.
pub fn agree_of(r: usize, misfit: f64, within: bool, finite: bool) -> bool
    requires { r ≤ 16 }
    ensures { result ≡ agrees r misfit within finite }
{
    0 < r && misfit <= limit(r) && within && finite
}

// One meter explains the misfit, where its test has this square.
pub fn explained_of(r: usize, misfit: f64, square: f64) -> bool
    requires { r ≤ 16 }
    ensures { result ≡ explains r misfit square }
{
    r == 1 || misfit - square <= limit(r.saturating_sub(1))
}

// The mark of a meter where the meters disagree.
pub fn mark_of(h: f64, t: f64, square: f64, tied: bool) -> u32
    ensures { result ≡ mark_of h t square tied }
{
    if h < TINY {
        return 0;
    }
    if tied {
        return 2;
    }
    let s = square_of(h, t);
    if square - 6.0 <= s {
        return 1;
    }
    0
}

// 1 where the value v is zero and the corrected value x is no more than 2^-20 spreads.
pub fn still_of(v: f64, x: f64, s: f64) -> u8
    ensures { result ≡ still_of v x s }
{
    if v == 0.0 {
        if x <= TINY * s {
            return 1;
        }
        return 0;
    }
    0
}
