// How a test or store is written: its operator, and on which flip-flops it is.
#![tactic(auto)]

ghost use Rattle.std.specs.Prelude.{◌≡◌};
ghost use Rattle.write_lines.specs.Fit.{PutIfRoom};
ghost use Rattle.write_operators.specs.Ways.{operator_bytes, next, base_of};

// How the next test is written: "LD or LDN, then AND or ANDN"; or as a store, S or R.
#[derive(Clone, Copy)]
pub enum Way {
    First,
    More,
    Store,
}

// The operator, up to its operand.
pub fn put_asked(out: &mut [u8], at: usize, way: Way, wanted: bool) -> usize
    ensures { PutIfRoom out.old at (operator_bytes way wanted) out.new result }
{
    match (way, wanted) {
        (Way::First, true) => write_lines::put_part(out, at, b"LD "),
        (Way::First, false) => write_lines::put_part(out, at, b"LDN "),
        (Way::More, true) => write_lines::put_part(out, at, b"AND "),
        (Way::More, false) => write_lines::put_part(out, at, b"ANDN "),
        (Way::Store, true) => write_lines::put_part(out, at, b"S "),
        (Way::Store, false) => write_lines::put_part(out, at, b"R "),
    }
}

// How the tests after the first are written.
pub fn next(way: Way) -> Way
    ensures { result ≡ next way }
{
    match way {
        Way::First | Way::More => Way::More,
        Way::Store => Way::Store,
    }
}

// A test is on a flip-flop, a store on its working copy: "the working copy of %MXb is %MX(B + b)".
pub fn base(way: Way, total: u32) -> u32
    ensures { result ≡ base_of total way }
{
    match way {
        Way::First | Way::More => 0,
        Way::Store => total,
    }
}
