//! Statements and declarations of every form, and such that are none.

/// What stands before the statements: 139 bytes.
pub const HEAD: &[u8] =
    b"__kernel void lift(__global const uint *a0, __global uint *o0, const uint s0)
{
  __local uint l0[4];
  uint p0[3];
  uint v0;
  uint4 w0;
";

pub const END: &[u8] = b"}
";

/// Statements of every form.
pub const STATEMENTS: [&'static [u8]; 76] = [
    b"  v0 = (uint)get_global_id(0);\n",
    b"  v0 = (uint)get_group_id(0);\n",
    b"  v0 = (uint)get_local_id(0);\n",
    b"  v0 = (uint)get_global_size(0);\n",
    b"  v0 = (uint)get_num_groups(0);\n",
    b"  v0 = (uint)get_local_size(0);\n",
    b"  v0 = a0[s0];\n",
    b"  v0 = o0[s0];\n",
    b"  v0 = l0[s0];\n",
    b"  v0 = p0[s0];\n",
    b"  o0[(uint)get_local_id(0)] = v0;\n",
    b"  l0[(uint)get_local_id(0)] = v0;\n",
    b"  p0[(uint)get_local_id(0)] = v0;\n",
    b"  v0 = (v0 + 3u);\n",
    b"  v0 = (v0 - 3u);\n",
    b"  v0 = (v0 * 3u);\n",
    b"  v0 = (v0 / 3u);\n",
    b"  v0 = (v0 % 3u);\n",
    b"  v0 = (v0 & 3u);\n",
    b"  v0 = (v0 | 3u);\n",
    b"  v0 = (v0 ^ 3u);\n",
    b"  v0 = (v0 << 3u);\n",
    b"  v0 = (v0 >> 3u);\n",
    b"  v0 = min(v0, (s0 + 1u));\n",
    b"  v0 = max(v0, (s0 + 1u));\n",
    b"  v0 = (v0 < 1u ? 2u : 3u);\n",
    b"  v0 = ((v0 & 1u) == s0 ? (v0 < 9u ? v0 : 0u) : min(v0, 7u));\n",
    b"  barrier(CLK_LOCAL_MEM_FENCE);\n",
    b"  barrier(CLK_GLOBAL_MEM_FENCE);\n",
    b"  barrier(CLK_LOCAL_MEM_FENCE | CLK_GLOBAL_MEM_FENCE);\n",
    b"  for (uint i0 = 0u; i0 < s0; i0 += (uint)get_global_size(0)) {\n    v0 = i0;\n  }\n",
    b"  for (uint i0 = (uint)get_global_id(0); i0 < s0; i0 += (uint)get_global_size(0)) {\n    v0 = i0;\n  }\n",
    b"  for (uint i0 = (uint)get_group_id(0); i0 < s0; i0 += (uint)get_num_groups(0)) {\n    v0 = i0;\n  }\n",
    b"  for (uint i0 = (uint)get_local_id(0); i0 < s0; i0 += (uint)get_local_size(0)) {\n    v0 = i0;\n  }\n",
    b"  for (uint i0 = (uint)get_local_id(0); i0 < s0; i0 += 1u) {\n    v0 = i0;\n  }\n",
    b"  for (uint i0 = 0u; i0 < min((s0 / 2u), (s0 == 3u ? 4u : (s0 << 1u))); i0 += 1u) {\n    v0 = i0;\n  }\n",
    b"  for (uint i0 = (uint)get_group_id(0); i0 < 4u; i0 += (uint)get_num_groups(0)) {\n    barrier(CLK_LOCAL_MEM_FENCE);\n    for (uint i1 = (uint)get_local_id(0); i1 < 4u; i1 += (uint)get_local_size(0)) {\n      l0[i1] = (i0 * i1);\n    }\n    v0 = l0[0u];\n  }\n",
    b"  v0 = (uint)get_global_id(1);\n",
    b"  v0 = (uint)get_group_id(1);\n",
    b"  v0 = (uint)get_local_id(1);\n",
    b"  v0 = (uint)get_global_size(1);\n",
    b"  v0 = (uint)get_num_groups(1);\n",
    b"  v0 = (uint)get_local_size(1);\n",
    b"  for (uint i0 = (uint)get_global_id(1); i0 < s0; i0 += (uint)get_global_size(1)) {\n    v0 = i0;\n  }\n",
    b"  for (uint i0 = (uint)get_group_id(1); i0 < s0; i0 += (uint)get_num_groups(1)) {\n    v0 = i0;\n  }\n",
    b"  for (uint i0 = (uint)get_local_id(1); i0 < s0; i0 += (uint)get_local_size(1)) {\n    v0 = i0;\n  }\n",
    b"  if (0u < s0) {\n    v0 = 1u;\n  }\n",
    b"  if ((uint)get_global_id(0) < 4u) {\n    v0 = 1u;\n  }\n",
    b"  if ((uint)get_group_id(0) < 4u) {\n    v0 = 1u;\n  }\n",
    b"  if ((uint)get_local_id(0) < 4u) {\n    v0 = 1u;\n  }\n",
    b"  if ((uint)get_global_id(1) < 4u) {\n    v0 = 1u;\n  }\n",
    b"  if ((uint)get_group_id(1) < 4u) {\n    v0 = 1u;\n  }\n",
    b"  if ((uint)get_local_id(1) < 4u) {\n    v0 = 1u;\n  }\n",
    b"  if (0u < min((s0 / 2u), (s0 == 3u ? 4u : (s0 << 1u)))) {\n    v0 = 1u;\n    v0 = 2u;\n  }\n",
    b"  if (0u < 1u) {\n    if (0u < 1u) {\n      barrier(CLK_LOCAL_MEM_FENCE);\n    }\n    v0 = 1u;\n  }\n",
    b"  if (0u < 1u) {\n    for (uint i0 = 0u; i0 < 4u; i0 += 1u) {\n      if (0u < 1u) {\n        for (uint i1 = 0u; i1 < 4u; i1 += 1u) {\n          v0 = (i0 + i1);\n        }\n      }\n    }\n  }\n",
    b"  w0 = w0;\n",
    b"  w0 = (uint4)((v0 + 3u));\n",
    b"  w0 = (w0 + (uint4)(s0));\n",
    b"  w0 = (w0 - (uint4)(s0));\n",
    b"  w0 = (w0 * (uint4)(s0));\n",
    b"  w0 = (w0 / (uint4)(s0));\n",
    b"  w0 = (w0 % (uint4)(s0));\n",
    b"  w0 = (w0 & (uint4)(s0));\n",
    b"  w0 = (w0 | (uint4)(s0));\n",
    b"  w0 = (w0 ^ (uint4)(s0));\n",
    b"  w0 = (w0 << (uint4)(s0));\n",
    b"  w0 = (w0 >> (uint4)(s0));\n",
    b"  w0 = min(w0, (w0 + w0));\n",
    b"  w0 = max((uint4)((uint)get_local_id(1)), w0);\n",
    b"  w0 = ((w0 + (uint4)((v0 < 1u ? 2u : 3u))) * ((uint4)(1u) - w0));\n",
    b"  w0 = vload4(min(v0, 7u), a0);\n",
    b"  w0 = vload4(min(v0, 7u), o0);\n",
    b"  w0 = vload4(min(v0, 7u), l0);\n",
    b"  vstore4((w0 + w0), (uint)get_local_id(0), o0);\n",
    b"  vstore4((w0 + w0), (uint)get_local_id(0), l0);\n",
];

/// Statements that are none, and the byte of each at which it is refused.
pub const NO_STATEMENTS: [(&'static [u8], u8); 87] = [
    (b"  v0 = (uint)get_work_dim(0);\n", 13),
    (b"  v0 = (int)get_global_id(0);\n", 8),
    (b"  v0 = (uint) get_global_id(0);\n", 13),
    (b"  v0 = get_global_id(0);\n", 7),
    (b"  v0 = (v0 - 1u;\n", 15),
    (b"  v0 = (v0 ** 1u);\n", 12),
    (b"  v0 = (v0 && 1u);\n", 12),
    (b"  v0 = (v0 < < 1u);\n", 13),
    (b"  v0 = (v0 < 1u);\n", 15),
    (b"  v0 = (v0 = 1u);\n", 12),
    (b"  v0 = (v0 <= 1u);\n", 12),
    (b"  v0 = (v0 > 1u ? 1u : 2u);\n", 12),
    (b"  v0 = (v0 == 1u ? 1u);\n", 21),
    (b"  v0 = min(v0);\n", 13),
    (b"  v0 = min(v0,1u);\n", 14),
    (b"  v0 = abs(v0, 1u);\n", 7),
    (b"  v0 = ~v0;\n", 7),
    (b"  a0[0u] = 1u;\n", 2),
    (b"  l1[0u] = 1u;\n", 2),
    (b"  p1[0u] = 1u;\n", 2),
    (b"  v0 = l1[0u];\n", 7),
    (b"  v0 = p1[0u];\n", 7),
    (b"  v0 = l0;\n", 9),
    (b"  barrier(0);\n", 10),
    (
        b"  barrier(CLK_GLOBAL_MEM_FENCE | CLK_LOCAL_MEM_FENCE);\n",
        30,
    ),
    (
        b"  barrier(CLK_LOCAL_MEM_FENCE|CLK_GLOBAL_MEM_FENCE);\n",
        29,
    ),
    (b"  barrier();\n", 10),
    (
        b"  for (uint i0 = 1u; i0 < s0; i0 += 1u) {\n    v0 = i0;\n  }\n",
        17,
    ),
    (
        b"  for (uint i0 = v0; i0 < s0; i0 += 1u) {\n    v0 = i0;\n  }\n",
        17,
    ),
    (
        b"  for (uint i0 = (uint)get_global_size(0); i0 < s0; i0 += 1u) {\n    v0 = i0;\n  }\n",
        23,
    ),
    (
        b"  for (uint i0 = 0u; i0 < s0; i0 += 2u) {\n    v0 = i0;\n  }\n",
        36,
    ),
    (
        b"  for (uint i0 = 0u; i0 < s0; i0 += (uint)get_global_id(0)) {\n    v0 = i0;\n  }\n",
        42,
    ),
    (
        b"  for (uint i0 = 0u; i0 < (uint)get_global_size(0); i0 += 1u) {\n    v0 = i0;\n  }\n",
        27,
    ),
    (
        b"  for (uint i0 = 0u; i0 < i0; i0 += 1u) {\n    v0 = i0;\n  }\n",
        26,
    ),
    (
        b"  for (uint i0 = 0u; i0 < l0; i0 += 1u) {\n    v0 = i0;\n  }\n",
        26,
    ),
    (
        b"  for (uint i1 = 0u; i1 < s0; i1 += 1u) {\n    v0 = i1;\n  }\n",
        12,
    ),
    (b"  v0 = (uint)get_global_id(2);\n", 27),
    (b"  v0 = (uint)get_global_id(01);\n", 27),
    (b"  v0 = (uint)get_global_id();\n", 27),
    (b"  if (0u < s0) {\n  }\n", 17),
    (b"  if (0u < s0) {\n    v0 = 1u;\n}\n", 30),
    (b"  if (1u < s0) {\n    v0 = 1u;\n  }\n", 6),
    (b"  if (v0 < s0) {\n    v0 = 1u;\n  }\n", 6),
    (
        b"  if ((uint)get_global_size(0) < s0) {\n    v0 = 1u;\n  }\n",
        12,
    ),
    (b"  if (0u < v0) {\n    v0 = 1u;\n  }\n", 11),
    (
        b"  if (0u < (uint)get_local_id(0)) {\n    v0 = 1u;\n  }\n",
        12,
    ),
    (b"  if (0u == s0) {\n    v0 = 1u;\n  }\n", 9),
    (b"  if (0u << s0) {\n    v0 = 1u;\n  }\n", 10),
    (b"  if(0u < s0) {\n    v0 = 1u;\n  }\n", 4),
    (b"  if (0u < s0)\n    v0 = 1u;\n", 14),
    (b"  if (0u < s0) {\n    v0 = i0;\n  }\n", 26),
    (
        b"  if (0u < s0) {\n    v0 = 1u;\n  } else {\n    v0 = 2u;\n  }\n",
        33,
    ),
    (
        b"  if (0u < s0) {\n    for (uint i1 = 0u; i1 < 4u; i1 += 1u) {\n      v0 = i1;\n    }\n  }\n",
        31,
    ),
    (
        b"  for (uint i0 = (uint)get_local_id(2); i0 < s0; i0 += 1u) {\n    v0 = i0;\n  }\n",
        36,
    ),
    (
        b"  for (uint i0 = 0u; i0 < s0; i0 += (uint)get_local_size(2)) {\n    v0 = i0;\n  }\n",
        57,
    ),
    (
        b"  for (uint i0 = (uint)get_local_size(1); i0 < s0; i0 += 1u) {\n    v0 = i0;\n  }\n",
        23,
    ),
    (b"  w0 = vload4(0u, p0);\n", 18),
    (b"  w0 = vload4(0u, v0);\n", 18),
    (b"  w0 = vload4(w0, a0);\n", 14),
    (b"  w0 = vload4(a0, 0u);\n", 14),
    (b"  w0 = vload4(0u, a1);\n", 18),
    (b"  w0 = vload4(0u,a0);\n", 17),
    (b"  v0 = vload4(0u, a0);\n", 7),
    (b"  w0 = a0[0u];\n", 7),
    (b"  w0 = v0;\n", 7),
    (b"  w0 = 1u;\n", 7),
    (b"  w0 = w1;\n", 7),
    (b"  w1 = w0;\n", 2),
    (b"  v0 = w0;\n", 7),
    (b"  v0 = (w0 + 1u);\n", 8),
    (b"  w0 = (w0 + v0);\n", 13),
    (b"  w0 = (uint4)v0;\n", 14),
    (b"  w0 = (uint4)(w0);\n", 15),
    (b"  w0 = (uint)(v0);\n", 8),
    (b"  w0 = (w0 < w0);\n", 12),
    (b"  w0 = (w0 == w0 ? w0 : w0);\n", 11),
    (b"  w0 = (w0 < w0 ? w0 : w0);\n", 12),
    (b"  w0 = min(w0, 1u);\n", 15),
    (b"  w0 = (w0 + w0;\n", 15),
    (b"  vstore4(w0, 0u, a0);\n", 18),
    (b"  vstore4(w0, 0u, p0);\n", 18),
    (b"  vstore4(w0, 0u, o1);\n", 18),
    (b"  vstore4(0u, w0, o0);\n", 10),
    (b"  vstore4(w0, 0u);\n", 16),
    (b"  vstore4((w0), 0u, o0);\n", 13),
    (b"  vstore8(w0, 0u, o0);\n", 2),
    (b"  o0[0u] = w0;\n", 11),
];

/// What stands before the declarations: 40 bytes.
pub const OPENING: &[u8] = b"__kernel void lift(__global uint *o0)
{
";

/// What stands behind them.
pub const STORE: &[u8] = b"  o0[0u] = 0u;
}
";

/// Declarations of every form.
pub const DECLARATIONS: [&'static [u8]; 5] = [
    b"  __local uint l0[1];\n",
    b"  uint p0[4294967295];\n",
    b"  __local uint l0[2];\n  __local uint l1[3];\n  uint p0[4];\n  uint p1[5];\n  uint v0;\n  uint v1;\n",
    b"  uint4 w0;\n",
    b"  __local uint l0[2];\n  uint p0[4];\n  uint v0;\n  uint4 w0;\n  uint4 w1;\n",
];

/// Declarations that are none, and the byte of each at which it is refused.
pub const NO_DECLARATIONS: [(&'static [u8], u8); 24] = [
    (b"  __local uint l0[0];\n", 18),
    (b"  __local uint l0[4u];\n", 18),
    (b"  __local uint l0[04];\n", 18),
    (b"  __local uint l0[4294967296];\n", 18),
    (b"  __local uint l1[4];\n", 15),
    (b"  __local uint p0[4];\n", 15),
    (b"  uint p0[4];\n  __local uint l0[4];\n", 16),
    (b"  uint v0;\n  uint p0[4];\n", 18),
    (b"  uint v0;\n  __local uint l0[4];\n", 13),
    (b"  uint l0[4];\n", 7),
    (b"  uint p0;\n", 9),
    (b"  uint v0[4];\n", 9),
    (b"  uint p1[4];\n", 7),
    (b"  __private uint p0[4];\n", 2),
    (b"  uint4 w0;\n  uint v0;\n", 14),
    (b"  uint4 w0;\n  __local uint l0[4];\n", 14),
    (b"  uint4 w0;\n  uint p0[4];\n", 14),
    (b"  uint4 w1;\n", 8),
    (b"  uint4 w00;\n", 8),
    (b"  uint4 v0;\n", 8),
    (b"  uint w0;\n", 7),
    (b"  uint4 w0[4];\n", 10),
    (b"  uint4 w0, w1;\n", 10),
    (b"  uint8 w0;\n", 2),
];

/// What stands before the numbers of a size of work-groups.
pub const SIZED: &[u8] = b"__kernel __attribute__((reqd_work_group_size";

/// What stands behind them.
pub const UNSIZED: &[u8] = b")) void lift(__global uint *o0)
{
  o0[0u] = 0u;
}
";

/// Sizes of work-groups.
pub const SIZES: [&'static [u8]; 5] = [
    b"(4, 2, 1)",
    b"(1, 1, 1)",
    b"(256, 1, 1)",
    b"(1, 256, 1)",
    b"(16, 16, 1)",
];

/// Sizes that are none, and the byte of the text at which each is refused.
pub const NO_SIZES: [(&'static [u8], u8); 20] = [
    (b"(0, 1, 1)", 45),
    (b"(257, 1, 1)", 45),
    (b"(04, 1, 1)", 45),
    (b"(4u, 1, 1)", 45),
    (b"(4294967296, 1, 1)", 45),
    (b"(4, 0, 1)", 48),
    (b"(4, 65, 1)", 48),
    (b"(1, 257, 1)", 48),
    (b"(16, 17, 1)", 49),
    (b"(65536, 65536, 1)", 45),
    (b"(4, 4294967296, 1)", 48),
    (b"(2, 2147483648, 1)", 48),
    (b"(4, 02, 1)", 48),
    (b"(4, 2, 0)", 51),
    (b"(4, 2, 2)", 51),
    (b"(4, 2)", 49),
    (b"(4, 2, 1", 54),
    (b"(4)", 46),
    (b"(4,2, 1)", 47),
    (b"(4, 2, 1) ", 53),
];

/// Texts whose first lines are none, and the byte at which each is refused.
pub const NO_HEADS: [(&'static [u8], u8); 6] = [
    (
        b"__kernel __attribute__((reqd_work_group_size(4, 2, 1)))void lift(__global uint *o0)\n{\n  o0[0u] = 0u;\n}\n",
        55,
    ),
    (
        b"__kernel void __attribute__((reqd_work_group_size(4, 2, 1))) lift(__global uint *o0)\n{\n  o0[0u] = 0u;\n}\n",
        14,
    ),
    (
        b"__kernel __attribute__((work_group_size_hint(4, 2, 1))) void lift(__global uint *o0)\n{\n  o0[0u] = 0u;\n}\n",
        24,
    ),
    (
        b"__kernel __attribute__ ((reqd_work_group_size(4, 2, 1))) void lift(__global uint *o0)\n{\n  o0[0u] = 0u;\n}\n",
        22,
    ),
    (
        b"__kernel void lift0(__global uint *o0)\n{\n  o0[0u] = 0u;\n}\n",
        14,
    ),
    (
        b"__kernel lift(__global uint *o0)\n{\n  o0[0u] = 0u;\n}\n",
        9,
    ),
];
