//! The demo's program and script.
ghost use Rattle.std.specs.Prelude.{◌≡◌};
ghost use Rattle.demo_program.specs.Texts.{program_text, script_text};

/// The program: sums of three neighbours, over a multiple of 64 numbers.
pub fn program() -> &'static [u8]
    ensures { result.now ≡ program_text }
{
    b"size N multiple 64 from 64 to 65536; input xs: [u32; N]; output join(map(\\w. reduce(add, 0, w), slide(3, 1, pad(1, 1, xs))))"
}

/// The script: tiles of 64 sums, each in a work-group, which copies what the tile reads to local
/// memory.
pub fn script() -> &'static [u8]
    ensures { result.now ≡ script_text }
{
    b"at 0.0 tile-slide 64\nat 0 map-join\nat 0.0 fuse-map\nat 0.0.1 let-inline\nat 0.0.1.0.0 local-copy\nat 0.0.1.1 reduce-fold\nat 0.0.1.1 fold-seq\nat 0.0.1 to-lcl\nat 0.0 to-wrg\n"
}
