// Where a byte stands first.
#![tactic(auto)]

ghost use Rattle.std.specs.Prelude.{◌≡◌, ◌<◌, ◌≤◌, length, get_or};
ghost use Rattle.scan.specs.Finds.{Lacks};

// The first place from `from` on up to `to` that has the byte; `to` if none has it.
pub fn find(bytes: &[u8], from: usize, to: usize, byte: u8) -> usize
    requires { (from ≤ to) × (to ≤ length bytes.now) }
    ensures within { (from ≤ result) × (result ≤ to) }
    ensures has { result < to → get_or bytes.now result 0 ≡ byte }
    ensures first { Lacks bytes.now from result byte }
{
    for i in from..to {
        if bytes[i] == byte {
            return i;
        }
    }
    to
}
