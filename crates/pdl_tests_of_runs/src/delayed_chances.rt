// Further ones, whose memories answer by chance, each on its own.
use crate::delayed_runs::{DelayedCounts, DelayedRun};

/// Each reply is given by chance.
pub const CHANCES: [DelayedRun; 5] = [
    // Half of the replies are given, by chance.
    DelayedRun {
        source: b"pipe p(n0: uint<4>)[m0: uint<1>[2] comb lock bypass(1), d1: uint<4>[2] delayed] {
g1 = n0[2:2];
a2 = 1'd1;
if (g1) {
reserve(m0[a2], W);
}
if (g1) {
block(m0[a2]);
}
---
y3 = (g1 - (33'd1 < 33'd1));
if (g1) {
m0[a2] <- y3;
}
---
a4 = 1'd1;
w5 <- d1[a4];
call(zext(n0, 4));
---
---
if (g1) {
release(m0[a2]);
}
} start p(4'd14);
",
        image: b"image 1
m0 1 1
d1 0 9
",
        replies: [0xb9e57a4b0e44f0b75b4b6f506, 0, 0],
        counts: DelayedCounts {
            ended: 16,
            waits: 17,
            squashes: 0,
        },
    },
    // Half of the replies are given, by chance.
    DelayedRun {
        source: b"pipe p(n0: uint<8>)[d0: uint<8>[8] delayed, m1: uint<8>[2] comb lock bypass(2)] {
call(n0 + 8'd3);
a1 = 1'd0;
reserve(m1[a1], W);
a2 = n0[3:1];
w3 <- d0[a2];
block(m1[a1]);
y4 = (n0[3:3] ? n0 : n0);
m1[a1] <- y4;
release(m1[a1]);
---
} start p(8'd1);
",
        image: b"image 1
d0 2 f0
d0 4 4c
d0 5 89
d0 6 4
d0 7 21
m1 0 b1
m1 1 7b
",
        replies: [0x709be072117b95a4e77a3e2b2, 0, 0],
        counts: DelayedCounts {
            ended: 51,
            waits: 48,
            squashes: 0,
        },
    },
    // Half of the replies are given, by chance.
    DelayedRun {
        source: b"pipe p(n0: uint<2>)[d0: uint<1>[8] delayed, m1: uint<8>[4] comb lock bypass(4), d2: uint<8>[8] delayed] {
a1 = sext(3'd1, 3);
w2 <- d2[a1];
---
a3 = n0;
reserve(m1[a3], W);
a4 = w2[2:0] + w2[3:1];
w5 <- d0[a4];
g6 = w2[0:0];
if (g6) {
---
} else {
---
---
}
---
call(((n0 << w2[6:5]) - 2'd1));
block(m1[a3]);
y7 = w2[7:0];
m1[a3] <- y7;
t8 = w2[3:0] + w2[7:4];
release(m1[a3]);
} start p(2'd3);
",
        image: b"image 1
d0 0 1
d0 1 0
d0 2 1
d0 6 1
d0 7 0
m1 0 dd
m1 1 e5
m1 2 a9
m1 3 0
d2 0 3e
d2 2 ef
d2 4 40
d2 5 1d
d2 6 98
d2 7 db
",
        replies: [0xab0741e2425c72d817a95003c, 0xf3b3ca13eeb87499e3559c600, 0],
        counts: DelayedCounts {
            ended: 12,
            waits: 40,
            squashes: 0,
        },
    },
    // A fifth of the replies are given, by chance.
    DelayedRun {
        source: b"pipe p(n0: uint<8>)[m0: uint<8>[2] comb lock bypass(1), d1: uint<8>[2] delayed] {
---
spec_check();
a1 = 1'd1;
w2 <- d1[a1];
s = spec_call(8'd200);
---
a3 = (w2[7:5] < 3'h5);
reserve(m0[a3], W);
block(m0[a3]);
verify(s, 8'd200);
y4 = w2[7:0];
m0[a3] <- y4;
release(m0[a3]);
---
} start p(8'h1);
",
        image: b"image 1
m0 1 f9
d1 0 d5
d1 1 a5
",
        replies: [0xc204205d14101300103001b00, 0, 0],
        counts: DelayedCounts {
            ended: 20,
            waits: 72,
            squashes: 0,
        },
    },
    // A fifth of the replies are given, by chance.
    DelayedRun {
        source: b"pipe p(n0: uint<4>, n1: uint<4>)[m0: uint<8>[2] comb lock bypass(8), d1: uint<8>[2] delayed, d2: uint<1>[2] delayed, d3: uint<8>[8] delayed] {
call(n0 + 4'd0, n1 + 4'd3);
t1 = n1[2:2];
a2 = 3'h0;
w3 <- d3[a2];
a4 = ~1'd0;
reserve(m0[a4], W);
block(m0[a4]);
g5 = t1;
a6 = (t1 & t1);
if (g5) {
w7 <- d1[a6];
}
y8 = 8'h1;
m0[a4] <- y8;
release(m0[a4]);
---
a9 = a6;
if (g5) {
w10 <- d2[a9];
}
---
---
} start p(4'h0, 4'h1);
",
        image: b"image 1
m0 0 8d
m0 1 69
d1 1 aa
d2 0 1
d3 1 cb
d3 2 a6
d3 3 17
d3 4 d5
d3 5 56
d3 6 ed
d3 7 88
",
        replies: [
            0xb212022044020a80080c9c43,
            0x4840043a0b4c4000c10106800,
            0x300400640261004c801480210,
        ],
        counts: DelayedCounts {
            ended: 16,
            waits: 82,
            squashes: 0,
        },
    },
];
