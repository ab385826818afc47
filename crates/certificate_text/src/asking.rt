ghost use Rattle.std.specs.Prelude.{◌≡◌, ◌<◌, ◌≤◌, ◌+◌, ◌-◌, ◌*◌, ℕ, drop, length, get_or, slice_index, All, IfSome, MatchOption};
ghost use Rattle.certificate_rules.specs.Cubes.{IsWhole};
ghost use Rattle.certificate_text.specs.Asked as kinds;
ghost use Rattle.certificate_text.specs.Lines as lines;
ghost use Rattle.certificate_text.specs.Lines.{rows, IsFreeAt, SplitsAt, passes_of, targeted, levels_of, level_as, won, rank_below, out, held, loss_below, loss_from, value_below, meets, settles, is_true_level};

use crate::marks::{CertMark, Level, Levels, Lines, Question, Test, Way};

fn is_won(mark: CertMark) -> bool
    ensures { result ≡ won mark }
{
    match mark {
        CertMark::Goal => true,
        CertMark::Win(_) => true,
        _ => false,
    }
}

fn has_rank_below(mark: CertMark, n: u32) -> bool
    ensures { result ≡ rank_below n mark }
{
    match mark {
        CertMark::Goal => 0 < n,
        CertMark::Win(k) => k < n,
        _ => false,
    }
}

fn is_out(mark: CertMark) -> bool
    ensures { result ≡ out mark }
{
    match mark {
        CertMark::Held => true,
        CertMark::LostIn(_) => true,
        CertMark::Lost => true,
        _ => false,
    }
}

fn is_held(mark: CertMark) -> bool
    ensures { result ≡ held mark }
{
    match mark {
        CertMark::Held => true,
        _ => false,
    }
}

fn has_loss_below(mark: CertMark, n: u32) -> bool
    ensures { result ≡ loss_below n mark }
{
    match mark {
        CertMark::LostIn(k) => k < n,
        _ => false,
    }
}

fn has_loss_from(mark: CertMark, n: u32) -> bool
    ensures { result ≡ loss_from n mark }
{
    match mark {
        CertMark::Held => true,
        CertMark::LostIn(k) => !(k as u64 + 1 < n as u64),
        _ => false,
    }
}

fn is_below(value: Option<u32>, n: u32) -> bool
    ensures { result ≡ value_below n value }
{
    match value {
        Some(v) => v < n,
        None => false,
    }
}

// Whether a location with this mark and this value meets a test.
fn is_met(test: Test, mark: CertMark, value: Option<u32>) -> bool
    ensures { result ≡ meets test mark value }
{
    match test {
        Test::Legal => true,
        Test::Illegal => false,
        Test::RankBelow(n) => has_rank_below(mark, n),
        Test::NotRankBelow(n) => !has_rank_below(mark, n),
        Test::IsWon => is_won(mark),
        Test::IsNotWon => !is_won(mark),
        Test::ValueBelow(n) => is_below(value, n),
        Test::NotValueBelow(n) => !is_below(value, n),
        Test::IsOut => is_out(mark),
        Test::IsHeld => is_held(mark),
        Test::LossBelow(n) => has_loss_below(mark, n),
        Test::LossFrom(n) => has_loss_from(mark, n),
    }
}

// Whether a target answers the question; an illegal letter answers as `illegal` says.
fn passes(question: &Question<'_>, target: Option<u32>) -> bool
    requires within { IfSome target (λ t. t < length question.now.marks.now) }
    requires values { length question.now.values.now ≡ length question.now.marks.now }
    ensures { result ≡ passes_of question.now target }
{
    match target {
        None => question.illegal,
        Some(t) => {
            let mark = question.marks[t as usize];
            let value = question.values[t as usize];
            is_met(question.test, mark, value)
        }
    }
}

// Where the lines whose cubes have `0` at this depth end.
fn split(cubes: &[u8], width: usize, from: usize, to: usize, depth: usize) -> usize
    requires depth { depth < width }
    requires order { from ≤ to }
    requires within { to * width ≤ length cubes.now }
    requires parted { (m : ℕ) × ((i : ℕ) → from ≤ i → i < m → slice_index cubes.now (i * width + depth) ≡ 48) × ((i : ℕ) → m ≤ i → i < to → slice_index cubes.now (i * width + depth) ≡ 49) }
    ensures above { from ≤ result }
    ensures below { result ≤ to }
    ensures zeros { (i : ℕ) → from ≤ i → i < result → slice_index cubes.now (i * width + depth) ≡ 48 }
    ensures ones { (i : ℕ) → result ≤ i → i < to → slice_index cubes.now (i * width + depth) ≡ 49 }
{
    let mut low = from;
    let mut high = to;
    while low < high {
        let middle = low + (high - low) / 2;
        if cubes[middle * width + depth] == b'1' {
            high = middle;
        } else {
            low = middle + 1;
        }
    }
    low
}

// Where the lines split at this depth, if they do.
fn fork(cubes: &[u8], width: usize, from: usize, to: usize, depth: usize) -> Option<usize>
    requires depth { depth < width }
    requires order { from < to }
    requires within { to * width ≤ length cubes.now }
    requires whole { IsWhole (width - depth) (rows width depth cubes.now from (to - from)) }
    ensures { MatchOption result (IsFreeAt width depth cubes.now from to) (λ m. SplitsAt width depth cubes.now from to m) }
{
    if cubes[from * width + depth] == b'-' {
        return None;
    }
    Some(split(cubes, width, from, to, depth))
}

fn is_true(level: Level) -> bool
    ensures { result ≡ is_true_level level }
{
    match level {
        Level::True => true,
        _ => false,
    }
}

// Whether the answer of the first half is that of both.
fn is_settled(level: Level, low: bool) -> bool
    ensures { result ≡ settles level low }
{
    match level {
        Level::Each => !low,
        Level::Any => low,
        Level::False => true,
        Level::True => false,
    }
}

fn character_level(character: u8) -> Level
    ensures { level_as result ≡ kinds.character_level character }
{
    if character == b'-' {
        Level::Each
    } else if character == b'1' {
        Level::True
    } else {
        Level::False
    }
}

// How one of several propositions is asked, that with so many behind it.
fn way_level(way: Way, behind: usize) -> Level
    requires { behind < 32 }
    ensures { level_as result ≡ lines.way_level way behind }
{
    match way {
        Way::Each => Level::Each,
        Way::Any => Level::Any,
        Way::At(bits) => if (bits >> behind) % 2 == 1 {
            Level::True
        } else {
            Level::False
        },
    }
}

// How the proposition at this depth is asked.
fn level_at(levels: &Levels<'_>, depth: usize) -> Level
    requires depth { depth < length (levels_of levels.now) }
    requires few { length (levels_of levels.now) ≤ 32 }
    ensures { level_as result ≡ get_or (levels_of levels.now) depth kinds.Each }
{
    let front = levels.cube.len();
    if depth < front {
        return character_level(levels.cube[depth]);
    }
    let past = depth - front;
    let middle = levels.middle_count as usize;
    if past < middle {
        return way_level(levels.middle, middle - 1 - past);
    }
    way_level(
        levels.back,
        levels.back_count as usize - 1 - (past - middle),
    )
}

// How many propositions are asked.
fn width_of(levels: &Levels<'_>) -> usize
    ensures { result ≡ length (levels_of levels.now) }
{
    levels.cube.len() + levels.middle_count as usize + levels.back_count as usize
}

// Whether the letters below some of the lines answer the question.
fn asked_from(
    lines: &Lines<'_>,
    question: &Question<'_>,
    from: usize,
    to: usize,
    depth: usize,
) -> bool
    requires few { length (levels_of question.now.levels) ≤ 32 }
    requires depth { depth ≤ length (levels_of question.now.levels) }
    requires order { from < to }
    requires within { to ≤ length lines.now.targets.now }
    requires wide { length lines.now.cubes.now ≡ length lines.now.targets.now * length (levels_of question.now.levels) }
    requires whole { IsWhole (length (levels_of question.now.levels) - depth) (rows (length (levels_of question.now.levels)) depth lines.now.cubes.now from (to - from)) }
    requires targets { All (λ target. IfSome target (λ t. t < length question.now.marks.now)) lines.now.targets.now }
    requires values { length question.now.values.now ≡ length question.now.marks.now }
    ensures { result ≡ kinds.asked (drop depth (levels_of question.now.levels)) (targeted question.now lines.now.targets.now (rows (length (levels_of question.now.levels)) depth lines.now.cubes.now from (to - from))) }
{
    let width = width_of(&question.levels);
    if depth == width {
        return passes(question, lines.targets[from]);
    }
    match fork(lines.cubes, width, from, to, depth) {
        None => asked_from(lines, question, from, to, depth + 1),
        Some(middle) => {
            let level = level_at(&question.levels, depth);
            if is_true(level) {
                return asked_from(lines, question, middle, to, depth + 1);
            }
            let low = asked_from(lines, question, from, middle, depth + 1);
            if is_settled(level, low) {
                return low;
            }
            asked_from(lines, question, middle, to, depth + 1)
        }
    }
}

/// Whether the letters answer the question.
pub fn asked(lines: &Lines<'_>, question: &Question<'_>) -> bool
    requires few { length (levels_of question.now.levels) ≤ 32 }
    requires wide { length lines.now.cubes.now ≡ length lines.now.targets.now * length (levels_of question.now.levels) }
    requires whole { IsWhole (length (levels_of question.now.levels)) (rows (length (levels_of question.now.levels)) 0 lines.now.cubes.now 0 (length lines.now.targets.now)) }
    requires targets { All (λ target. IfSome target (λ t. t < length question.now.marks.now)) lines.now.targets.now }
    requires values { length question.now.values.now ≡ length question.now.marks.now }
    ensures { result ≡ kinds.asked (levels_of question.now.levels) (targeted question.now lines.now.targets.now (rows (length (levels_of question.now.levels)) 0 lines.now.cubes.now 0 (length lines.now.targets.now))) }
{
    asked_from(lines, question, 0, lines.targets.len(), 0)
}
