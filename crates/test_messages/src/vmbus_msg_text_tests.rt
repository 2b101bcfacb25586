//! The lines of messages made by another program, byte for byte, and the refusals of lines.

use crate::check::check;
use script_text::{ParseFault, ScriptFault, Why6};
use std::alloc::Global;
use std::process::Abort;
use vmbus_msg_text::decode_text;

// Messages as Linux's structs lay them out, one of each kind, and then bytes that are none.
const LINES: &[u8] =
    b"01000000a900cd4b00f30f00005c00d400ea72006873aad396ad00e500009f00870000087d7bcad50fc40026d30000000f2526009800904c002300531305b5b7bac466b490eb579349120022c3001d00003c000600dc4121008a06d2000000001fddb632000c363fcd000f00cbe3000d05000099f900aef7f4fc00003d0000cc3159cc691b005448612200da00c5006700a2000000f8a0a17f000f008400ed004f0066a6fd5ec7cc956900dfc00000000604a400efdcd62c004d000000339d9953e14e5e\n\
03\n\
01000000\n\
02000000758e\n\
04000000f0a271dca5\n\
03000000b11d9900a5a5a5a5\n\
02000000758ebd33010400d3a5\n\
02000000758ebd33010400d3\n\
03000000ffffffff\n\
04000000f0a271dc\n\
05000000ffffffffffffffffffffffffffffffffffffffffffffffffffffffffffffffffffffffffffffffffffffffffffffffffffffffffffffffffffffffffffffffffffffffffffffffffffffffffffffffffffffffffffffffffffffffffffffffffffffffffffffffffffffffffffffffffffffffffffffffffffffffffffffffffffffffffffffffffffffffffffffffff\n\
06000000ffffffffffffffffffffffffffffffff\n\
07000000ffffffffffffffff\n\
0a000000f01fe13ffbc4de0000c79bba7100007e\n\
0b00000000db6400000000e57f20dbde\n\
0c0000005b93005908160000\n\
0d000000ffffffffffffffff\n\
0e000000370092008e9b006c00b8c2348bf9e5a0078f4c007e0082bc41c51f008f0e0d8a2600e5bc\n\
0f0000000200dd00009ff5682dbbf7ef\n\
100000008ac23890\n\
11000000ffffffff\n\
00010000ffb8007aa9008100e4\n\
130000002d00c812ba36fb0000bbc271\n\
1700000000542576370096bfa00cbf3b00fa\n\
0800000065e59800a810f600f30051000000010000e0ff017df79c89\n\
0800000065e59800a810f600f30051000600010000e0ff017df79c89\n\
0800000065e59800a810f600f30051000c00010000e0ff017df79c89\n\
08000000523500ed1200469f7e6224a81800010000200000000000004bd5001900fd37cd0900680002000015\n\
090000000031005dc6e50a46b700007a80a6060000dad00b11e881ff12001300\n\
";

// What is printed of them.
const PRINTED: &[u8] =
    b"1 OFFERCHANNEL if_type 00f30f00005c00d400ea72006873aad3 if_instance 96ad00e500009f00870000087d7bcad5 chn_flags 8960 mmio 21248 user 1x13+1x05+1xb5+1xb7+1xba+1xc4+1x66+1xb4+1x90+1xeb+1x57+1x93+1x49+1x12+1x00+1x22+1xc3+1x00+1x1d+2x00+1x3c+1x00+1x06+1x00+1xdc+1x41+1x21+1x00+1x8a+1x06+1xd2+4x00+1x1f+1xdd+1xb6+1x32+1x00+1x0c+1x36+1x3f+1xcd+1x00+1x0f+1x00+1xcb+1xe3+1x00+1x0d+1x05+2x00+1x99+1xf9+1x00+1xae+1xf7+1xf4+1xfc+2x00+1x3d+2x00+1xcc+1x31+1x59+1xcc+1x69+1x1b+1x00+1x54+1x48+1x61+1x22+1x00+1xda+1x00+1xc5+1x00+1x67+1x00+1xa2+3x00+1xf8+1xa0+1xa1+1x7f+1x00+1x0f+1x00+1x84+1x00+1xed+1x00+1x4f+1x00+1x66+1xa6+1xfd+1x5e+1xc7+1xcc+1x95+1x69+1x00+1xdf+1xc0+3x00+1x06+1x04+1xa4+1x00 sub 56559 relid 19712 monitorid 0 monitor 51 interrupt 39325 connection 1582227795\n\
2 short 1 need 8\n\
3 short 4 need 8\n\
4 short 6 need 8\n\
5 long 9\n\
6 long 12\n\
7 long 13\n\
8 RESCIND_CHANNELOFFER relid 3539993601\n\
9 REQUESTOFFERS\n\
10 ALLOFFERS_DELIVERED\n\
11 OPENCHANNEL relid 4294967295 openid 4294967295 gpadl 4294967295 target_vp 4294967295 downstream 4294967295 user 120xff\n\
12 OPENCHANNEL_RESULT relid 4294967295 openid 4294967295 status 4294967295\n\
13 CLOSECHANNEL relid 4294967295\n\
14 GPADL_CREATED relid 14599419 gpadl 3130771200 status 2113929329\n\
15 GPADL_TEARDOWN relid 3841982464 gpadl 3738902655\n\
16 GPADL_TORNDOWN gpadl 5640\n\
17 RELID_RELEASED relid 4294967295\n\
18 INITIATE_CONTACT version 1811979150 target_vcpu 885176320 page 21549361156979083 monitor1 8942610404212862 monitor2 13611285614322060943\n\
19 VERSION_RESPONSE supported 0 state 159 conn 4025989933\n\
20 UNLOAD\n\
21 UNLOAD_RESPONSE\n\
22 unknown 256\n\
23 unknown 19\n\
24 unknown 23\n\
25 field range_buflen 0\n\
26 field range_buflen 6\n\
27 field range_buflen 12\n\
28 GPADL_HEADER relid 2672164882 gpadl 2820956798 range_buflen 24 rangecount 1 byte_count 8192 byte_offset 0 frames 14787566078355625291,1513209483393237001\n\
29 GPADL_BODY msgnumber 1175119302 gpadl 2046820535 frames 851420023108314752,5348106153617425\n\
";

fn fault(alloc: Global, bytes: &[u8]) -> Option<ScriptFault> {
    match decode_text(alloc, bytes) {
        Ok(_) => None,
        Err(ParseFault::Script(fault)) => Some(fault),
        Err(ParseFault::Memory) => Some(ScriptFault {
            line: 0,
            why: Why6::Order,
        }),
    }
}

fn refused(rt: &(impl Abort + AllocGlobal), bytes: &[u8], line: u32, why: Why6) {
    check(
        rt,
        fault(rt.alloc(), bytes) == Some(ScriptFault { line, why }),
    );
}

// These lines are printed as this text.
fn printed(rt: &(impl Abort + AllocGlobal), lines: &[u8], text: &[u8]) {
    match decode_text(rt.alloc(), lines) {
        Ok(found) => check(rt, found.as_slice() == text),
        Err(_) => check(rt, false),
    }
}

// A piece, so many times, and then the end.
fn repeated(rt: &(impl Abort + AllocGlobal), piece: &[u8], count: u32, end: &[u8]) -> Vec<u8> {
    let mut bytes = Vec::new(rt.alloc());
    for _ in 0..count {
        check(rt, bytes.extend_from_slice(piece).is_ok());
    }
    check(rt, bytes.extend_from_slice(end).is_ok());
    bytes
}

#[test]
fn prints(rt: HostRuntime) {
    printed(&rt, LINES, PRINTED);
    printed(&rt, b"", b"");
    let rows =
        b"0f000000000000000100000001000000\n0F0000000000000001000000010000\r\n0f00000000000000010000000100000000";
    let text = b"1 VERSION_RESPONSE supported 1 state 0 conn 1\n2 short 15 need 16\n3 long 17\n";
    printed(&rt, rows, text);
    printed(
        &rt,
        b"16000000000000000300000005000000\n1600000000000000030000000500000005",
        b"1 MODIFYCHANNEL relid 3 target_vp 5\n2 long 17\n",
    );
    printed(&rt, b"14000000000000000300000005000000", b"1 unknown 20\n");
}

#[test]
fn refuses(rt: HostRuntime) {
    refused(&rt, b"00\n\n", 2, Why6::Form);
    refused(&rt, b"000", 1, Why6::Form);
    refused(&rt, b"0g", 1, Why6::Form);
    refused(&rt, b"00 ", 1, Why6::Form);
    refused(&rt, b"00\r", 1, Why6::Form);
}

#[test]
fn limits(rt: HostRuntime) {
    check(
        &rt,
        fault(rt.alloc(), &repeated(&rt, b"a", 1024, b"")) == None,
    );
    refused(&rt, &repeated(&rt, b"a", 1025, b""), 1, Why6::Form);
    refused(&rt, &repeated(&rt, b"a", 1026, b""), 1, Why6::Limit);
    check(
        &rt,
        fault(rt.alloc(), &repeated(&rt, b"00\n", 20_000, b"")) == None,
    );
    refused(
        &rt,
        &repeated(&rt, b"00\n", 20_000, b"00"),
        20_001,
        Why6::Limit,
    );
    refused(
        &rt,
        &repeated(&rt, b"00\n", 20_000, b"\n"),
        20_001,
        Why6::Form,
    );
}
