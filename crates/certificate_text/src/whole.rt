ghost use Rattle.std.specs.Prelude.{◌≡◌, ◌≢◌, ◌<◌, ◌≤◌, ◌+◌, ◌-◌, ◌*◌, ◌↔◌, ℕ, length, slice_index, IsTrue};
ghost use Rattle.certificate_rules.specs.Cubes.{IsWhole};
ghost use Rattle.certificate_text.specs.Lines.{rows};
ghost use Rattle.certificate_text.specs.Halves.{HasAll};

// Whether each line has this character at this depth.
fn all_have(cubes: &[u8], width: usize, from: usize, to: usize, depth: usize, character: u8) -> bool
    requires depth { depth < width }
    requires order { from ≤ to }
    requires within { to * width ≤ length cubes.now }
    ensures { IsTrue result ↔ HasAll cubes.now width depth from to character }
{
    for i in from..to {
        if cubes[i * width + depth] != character {
            return false;
        }
    }
    true
}

// Where the lines with `0` at this depth end.
fn zeros_end(cubes: &[u8], width: usize, from: usize, to: usize, depth: usize) -> usize
    requires depth { depth < width }
    requires order { from ≤ to }
    requires within { to * width ≤ length cubes.now }
    ensures above { from ≤ result }
    ensures below { result ≤ to }
    ensures zeros { HasAll cubes.now width depth from result 48 }
    ensures end { result < to → slice_index cubes.now (result * width + depth) ≢ 48 }
{
    for i in from..to {
        if cubes[i * width + depth] != b'0' {
            return i;
        }
    }
    to
}

// Whether some of the lines, of which the first characters aren't looked at, are whole.
fn is_whole_from(cubes: &[u8], width: usize, from: usize, to: usize, depth: usize) -> bool
    requires depth { depth ≤ width }
    requires order { from ≤ to }
    requires within { to * width ≤ length cubes.now }
    ensures { IsTrue result ↔ IsWhole (width - depth) (rows width depth cubes.now from (to - from)) }
{
    if depth == width {
        return to - from == 1;
    }
    if from == to {
        return false;
    }
    if all_have(cubes, width, from, to, depth, b'-') {
        return is_whole_from(cubes, width, from, to, depth + 1);
    }
    let middle = zeros_end(cubes, width, from, to, depth);
    if !all_have(cubes, width, middle, to, depth, b'1') {
        return false;
    }
    if !is_whole_from(cubes, width, from, middle, depth + 1) {
        return false;
    }
    is_whole_from(cubes, width, middle, to, depth + 1)
}

/// Whether so many cubes, one after another, are whole, whatever stands behind them.
pub fn is_whole(cubes: &[u8], width: usize, count: usize) -> bool
    requires { length cubes.now ≡ count * width }
    ensures { IsTrue result ↔ IsWhole width (rows width 0 cubes.now 0 count) }
{
    is_whole_from(cubes, width, 0, count, 0)
}
