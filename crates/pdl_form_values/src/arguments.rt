// The values with which a thread begins.
ghost use Rattle.std.specs.Prelude.{◌≡◌, ◌≤◌, ◌-◌, ◌++◌, length, replicate};

use pdl_word::Word;

/// The values of arguments come first, and zeros after them.
pub fn fill(values: &mut [Word], args: &[Word])
    requires few { length args.now ≤ length values.old }
    ensures values { values.new ≡ args.now ++ replicate (length values.old - length args.now) 0 }
{
    for i in 0..values.len() {
        let value = match args.get(i) {
            Some(value) => *value,
            None => 0,
        };
        values[i] = value;
    }
}
