// Pipes with delayed memories, made at random, with images and replies, and what a model of the language in Python (tools/model.py) counts of their first 100 cycles.

/// How many threads ended in a run, in how many cycles some request waited, and how many guesses were wrong.
#[derive(Clone, Copy, Default, PartialEq)]
pub struct DelayedCounts {
    pub ended: u64,
    pub waits: u64,
    pub squashes: u64,
}

/// A source, an image, the replies of up to three delayed memories in each cycle, the first in the lowest bit, and what is counted.
#[derive(Clone, Copy)]
pub struct DelayedRun {
    pub source: &'static [u8],
    pub image: &'static [u8],
    pub replies: [u128; 3],
    pub counts: DelayedCounts,
}

/// Replies that are always the same.
pub const STEADY: [DelayedRun; 3] = [
    // Every request is answered in the next cycle.
    DelayedRun {
        source: b"pipe p(n0: uint<8>)[m0: uint<8>[2] comb lock rename(1), d1: uint<8>[2] delayed] {
spec_check();
s = spec_call(((n0[0:0] ? n0 : 8'd254) ^ n0));
t1 = n0[0:0];
a2 = (n0[2:2] | n0[7:7]);
reserve(m0[a2], W);
---
g3 = n0[1:1];
if (g3) {
block(m0[a2]);
---
} else {
block(m0[a2]);
---
---
---
}
---
verify(s, (~(n0[5:5] * 1'h1) ? ((n0[0:0] ? n0 : 8'd254) ^ n0) : (((n0[0:0] ? n0 : 8'd254) ^ n0)) + 8'd1));
y4 = n0;
m0[a2] <- y4;
---
a5 = (1'h1 * n0[4:4]);
w6 <- d1[a5];
if (1'd1 ^ 1'd1) {
---
---
---
} else {
---
}
---
spec_barrier();
release(m0[a2]);
} start p(8'hd2);
",
        image: b"image 1
d1 0 dd
",
        replies: [u128::MAX, 0, 0],
        counts: DelayedCounts {
            ended: 12,
            waits: 0,
            squashes: 4,
        },
    },
    // Every request is answered in the next cycle.
    DelayedRun {
        source: b"pipe p(n0: uint<2>)[m0: uint<8>[4] comb lock rename(4), d1: uint<8>[2] delayed, d2: uint<8>[4] delayed lock queue(4)] {
call(n0 + 2'd3);
---
a1 = 2'd1;
reserve(d2[a1], R);
a2 = 2'd1;
reserve(d2[a2], W);
block(d2[a1]);
t3 = (1'd0 ? 16'd0 : 16'd50853);
block(d2[a2]);
w4 <- d2[a1];
g5 = ~a1[1:1];
if (g5 ^ 1'd0) {
---
---
y6 = ~zext(4'd15, 8);
d2[a2] <- y6;
} else {
y7 = t3[9:2];
d2[a2] <- y7;
}
---
a8 = w4[0:0];
w9 <- d1[a8];
a10 = w4[1:0];
reserve(m0[a10], W);
block(m0[a10]);
---
release(d2[a1]);
t11 = w9[7:0];
y12 = w4[7:0] + w9;
m0[a10] <- y12;
release(d2[a2]);
release(m0[a10]);
} start p(2'd0);
",
        image: b"image 1
m0 0 9b
m0 2 e9
d1 0 3a
d1 1 18
d2 0 ff
d2 2 c8
d2 3 5
",
        replies: [u128::MAX, u128::MAX, 0],
        counts: DelayedCounts {
            ended: 19,
            waits: 0,
            squashes: 0,
        },
    },
    // None is answered.
    DelayedRun {
        source: b"pipe p(n0: uint<8>)[d0: uint<4>[4] delayed lock queue(1), m1: uint<8>[4] comb lock bypass(2), d2: uint<16>[4] delayed, d3: uint<8>[2] delayed, m4: uint<16>[4] comb] {
spec_check();
s = spec_call(n0);
a1 = ~2'd3;
reserve(d0[a1], W);
t2 = 16'd65535;
block(d0[a1]);
y3 = (4'd15 ^ t2[13:10]);
d0[a1] <- y3;
a4 = (t2[6:5] * (a1 + a1));
w5 <- d2[a4];
a6 = (1'd1 & 1'h1);
w7 <- d3[a6];
a8 = 2'd1;
reserve(m1[a8], W);
t9 = y3;
block(m1[a8]);
t10 = t9;
---
a11 = a1;
x12 = m4[a11];
---
spec_barrier();
verify(s, (((w5 < x12) ^ (n0 < w7)) ? n0 : (n0) + 8'd1));
---
release(d0[a1]);
y13 = x12[7:0];
m1[a8] <- y13;
release(m1[a8]);
} start p(8'd1);
",
        image: b"image 1
d0 1 a
d0 2 3
d0 3 d
m1 1 bd
m1 3 5c
d2 2 7db1
d2 3 aca0
d3 0 45
d3 1 8e
m4 0 c6d9
m4 1 e34d
m4 2 9a46
m4 3 f045
",
        replies: [0, 0, 0],
        counts: DelayedCounts {
            ended: 0,
            waits: 99,
            squashes: 0,
        },
    },
];

/// Replies of all memories at once, for some cycles, and then none for some.
pub const BURSTS: [DelayedRun; 2] = [
    // Replies come in bursts of one to six cycles.
    DelayedRun {
        source: b"pipe p(n0: uint<4>, n1: uint<4>)[m0: uint<1>[2] comb lock bypass(4), d1: uint<16>[4] delayed, d2: uint<8>[2] delayed, m3: uint<4>[2] comb] {
spec_check();
g1 = n1[2:2];
a2 = ~g1;
if (g1) {
reserve(m0[a2], R);
}
s = spec_call(n0 + 4'd2, n1 + 4'd1);
a3 = (n0[3:3] & g1);
if (g1) {
w4 <- d2[a3];
}
a5 = n0[3:3];
reserve(m0[a5], W);
if (g1) {
block(m0[a2]);
}
block(m0[a5]);
t6 = (4'h1 | n1);
a7 = 2'd1;
w8 <- d1[a7];
t9 = 8'd0;
---
---
spec_barrier();
verify(s, ((~w8[10:10] & (n1[1:1] * g1)) ? n0 + 4'd2 : (n0 + 4'd2) + 4'd1), n1 + 4'd1);
if (g1) {
x10 = m0[a2];
}
a11 = 1'd1;
x12 = m3[a11];
t13 = (8'd1 & w8[10:3]);
y14 = w8[0:0];
m0[a5] <- y14;
if (g1) {
release(m0[a2]);
}
release(m0[a5]);
} start p(4'h0, 4'hf);
",
        image: b"image 1
m0 0 1
m0 1 1
d1 1 a897
d1 2 686d
d1 3 ed3c
d2 0 fa
m3 0 a
m3 1 9
",
        replies: [0x382397478f9f81c0e40c3e13e, 0x382397478f9f81c0e40c3e13e, 0],
        counts: DelayedCounts {
            ended: 22,
            waits: 43,
            squashes: 17,
        },
    },
    // Replies come in bursts of one to six cycles.
    DelayedRun {
        source: b"pipe p(n0: uint<2>, n1: uint<4>)[m0: uint<4>[4] comb lock bypass(1), d1: uint<8>[2] delayed, d2: uint<4>[4] delayed lock queue(8), d3: uint<8>[4] delayed] {
spec_check();
a1 = (~n0 ^ (n0 ^ n0));
reserve(m0[a1], W);
a2 = n1[2:1];
reserve(d2[a2], R);
s = spec_call(n0 + 2'd2, n1 + 4'd1);
a3 = (n1[2:2] ? (a1 << n1[2:1]) : n1[2:1]);
reserve(d2[a3], W);
t4 = 8'd21;
block(d2[a2]);
t5 = n1;
block(d2[a3]);
w6 <- d2[a2];
---
y7 = w6[3:0];
d2[a3] <- y7;
a8 = w6[1:0];
w9 <- d3[a8];
a10 = w6[0:0] + a1[0:0];
w11 <- d1[a10];
---
block(m0[a1]);
y12 = ~~4'd1;
m0[a1] <- y12;
verify(s, (w6[3:3] ? n0 + 2'd2 : (n0 + 2'd2) + 2'd1), n1 + 4'd1);
release(m0[a1]);
release(d2[a2]);
release(d2[a3]);
} start p(2'h1, 4'd0);
",
        image: b"image 1
m0 3 9
d1 0 80
d1 1 ca
d2 0 5
d2 1 0
d2 3 9
d3 1 6c
d3 3 b9
",
        replies: [
            0xe71e7c1e30478f9e6c630765c,
            0xe71e7c1e30478f9e6c630765c,
            0xe71e7c1e30478f9e6c630765c,
        ],
        counts: DelayedCounts {
            ended: 19,
            waits: 41,
            squashes: 11,
        },
    },
];
