// The image of a source's memories, and a source that several tests run.
ghost use Rattle.std.specs.Prelude.{◌≤◌, length, IfOk};
ghost use Rattle.pdl_syntax_tree.specs.View.{pipe_view};
ghost use Rattle.pdl_image.specs.Images.{IsImage};
ghost use Rattle.pdl_rules.specs.Memories.{infos_of};

use pdl_check::Accepted;
use pdl_image::{FileError, Image, read_image};
use pdl_kit::files::LONGEST_FILE;
use std::alloc::Global;

/// A pipe whose threads count, each in one cycle with one write.
pub const COUNTER: &[u8] =
    b"pipe p(n: uint<4>)[m: uint<8>[4] comb lock queue(1)] { a = n[1:0]; v = zext(n, 8); reserve(m[a], W); block(m[a]); m[a] <- v; release(m[a]); call(n + 4'd1); } start p(4'd0);";

/// The image of a text for the memories of a pipe.
pub fn image_of(alloc: Global, accepted: &Accepted, text: &[u8]) -> Result<Image, FileError>
    requires { length text.now ≤ LONGEST_FILE }
    ensures { IfOk result (λ i. IsImage (infos_of (pipe_view accepted.now.typed.pipe).mems) i) }
{
    read_image(alloc, accepted.mems(), text)
}
