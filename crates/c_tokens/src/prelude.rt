// The lines that give a printed program its meaning in C.
ghost use Rattle.std.specs.Prelude.{◌≡◌, map};
ghost use Rattle.c_tokens.specs.Lines.{prelude};

/// The lines before every printed program, without their line feeds.
pub const PRELUDE: [&[u8]; 13] = [
    b"#include <stdint.h>",
    b"#include <stdlib.h>",
    b"#include <string.h>",
    b"#define min(a, b) ((a) < (b) ? (a) : (b))",
    b"#define max(a, b) ((a) > (b) ? (a) : (b))",
    b"#define floord(a, b) ((a) >= 0 ? (a) / (b) : -((-(a) + (b) - 1) / (b)))",
    b"#define ceild(a, b) (-floord(-(a), (b)))",
    b"#define INDEX1(x) int64_t *x = 0; int64_t x##_len = 0",
    b"#define INDEX2(x, e) int64_t (*x)[e] = 0; int64_t x##_len = 0",
    b"#define DATA1(x) uint64_t *x = 0; int64_t x##_len = 0",
    b"#define DATA2(x, e) uint64_t (*x)[e] = 0; int64_t x##_len = 0",
    b"#define DATA3(x, e, f) uint64_t (*x)[e][f] = 0; int64_t x##_len = 0",
    b"#define GROW(x, e) x = realloc(x, sizeof(*x) * (x##_len + (e))); memset(x + x##_len, 0, sizeof(*x) * (e)); x##_len += (e)",
];

/// The lines before every printed program.
pub fn prelude_lines() -> &'static [&'static [u8]]
    ensures { map (λ line. line.now) result.now ≡ prelude }
{
    &PRELUDE
}
