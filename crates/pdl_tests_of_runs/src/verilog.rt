// Texts that netlists are given.
ghost use Rattle.std.specs.Prelude.{◌≤◌, length};

use pdl_kit::NoMemory;
use pdl_vlog::write_verilog;
use pdl_vread::read_verilog;
use std::alloc::Global;

// A memory with a lock whose words go down by turns, as it is written.
const COUNTS: &[u8] =
    b"module pdl_p(input wire clk, input wire [0:0] rst, output wire [0:0] v_0, output wire [0:0] g_0, output wire [0:0] c_m, output wire [1:0] ca_m, output wire [7:0] cd_m, output wire [0:0] ended, output wire [0:0] squash);
reg [1:0] r0;
reg [7:0] a_m [0:3];
wire [0:0] n0;
assign n0 = 1'h1;
wire [1:0] n1;
assign n1 = 2'h3;
wire [1:0] n2;
assign n2 = r0 + n1;
wire [7:0] n3;
assign n3 = a_m[r0];
wire [7:0] n4;
assign n4 = 8'hff;
wire [7:0] n5;
assign n5 = n3 + n4;
assign v_0 = n0;
assign g_0 = n0;
assign c_m = n0;
assign ca_m = r0;
assign cd_m = n5;
assign ended = n0;
assign squash = n0;
always @(posedge clk) r0 <= rst ? 2'h3 : n2;
always @(posedge clk) begin
if (n0) a_m[r0] <= n5;
end
endmodule
";

// A stage and nothing else, with every other form of a cell, as it is written.
const CELLS: &[u8] =
    b"module pdl_q(input wire clk, input wire [0:0] rst, output wire [0:0] v_0, output wire [0:0] g_0, output wire [0:0] ended, output wire [0:0] squash);
reg [3:0] r0;
wire [0:0] n0;
assign n0 = r0[2:2];
wire [0:0] n1;
assign n1 = ~n0;
wire [1:0] n2;
assign n2 = {n0, n1};
wire [3:0] n3;
assign n3 = {2{n2}};
wire [0:0] n4;
assign n4 = n3 < r0;
wire [3:0] n5;
assign n5 = n4 ? n3 : r0;
assign v_0 = n0;
assign g_0 = n1;
assign ended = n4;
assign squash = n1;
always @(posedge clk) r0 <= rst ? 4'ha : n5;
endmodule
";

// An array without a lock with two write ports, the later of which holds where both write a word, as it is written.
const TABLE: &[u8] =
    b"module pdl_t(input wire clk, input wire [0:0] rst, output wire [0:0] v_0, output wire [0:0] g_0, output wire [0:0] ended, output wire [0:0] squash);
reg [1:0] r0;
reg [7:0] a_t [0:3];
wire [0:0] n0;
assign n0 = 1'h1;
wire [1:0] n1;
assign n1 = 2'h3;
wire [1:0] n2;
assign n2 = r0 + n1;
wire [7:0] n3;
assign n3 = a_t[r0];
wire [0:0] n4;
assign n4 = n3[7:7];
assign v_0 = n0;
assign g_0 = n4;
assign ended = n0;
assign squash = n4;
always @(posedge clk) r0 <= rst ? 2'h3 : n2;
always @(posedge clk) begin
if (n0) a_t[n2] <= n3;
if (n4) a_t[r0] <= n3;
end
endmodule
";

// The same as a text may be written: its names out of order, several declarations on a line, and a comment.
const LOOSE: &[u8] =
    b"module pdl_p(input wire clk, input wire [0:0] rst, output wire [0:0] v_0, output wire [0:0] g_0,
output wire [0:0] c_m, output wire [1:0] ca_m, output wire [7:0] cd_m, output wire [0:0] ended, output wire [0:0] squash);
reg [1:0] r7; // the address
reg [7:0] a_m [0:3];
wire [0:0] n5; assign n5 = 1'h1; wire [1:0] n9; assign n9 = 2'h3;
wire [1:0] n7; assign n7 = r7 + n9; wire [7:0] n2; assign n2 = a_m[r7];
wire [7:0] n1; assign n1 = 8'hff; wire [7:0] n0; assign n0 = n2 + n1;
assign squash = n5; assign v_0 = n5; assign g_0 = n5;
assign c_m = n5; assign ca_m = r7; assign cd_m = n0; assign ended = n5;
always @(posedge clk) r7 <= rst ? 2'h3 : n7;
always @(posedge clk) begin if (n5) a_m[r7] <= n0; end
endmodule";

// Whether what is read of a text is given another one.
fn gives(alloc: Global, text: &[u8], wanted: &[u8]) -> bool {
    if text.len() > 1_000_000 {
        return false;
    }
    match read_verilog(alloc, text) {
        Ok(netlist) => is_text(write_verilog(alloc, &netlist), wanted),
        Err(_) => false,
    }
}

fn is_text(text: Result<Vec<u8>, NoMemory>, wanted: &[u8]) -> bool {
    match text {
        Ok(text) => text.as_slice() == wanted,
        Err(_) => false,
    }
}

#[test]
fn gives_texts(rt: HostRuntime) {
    assert!(rt; gives(rt.alloc(), COUNTS, COUNTS));
    assert!(rt; gives(rt.alloc(), LOOSE, COUNTS));
    assert!(rt; gives(rt.alloc(), CELLS, CELLS));
    assert!(rt; gives(rt.alloc(), TABLE, TABLE));
}
