//! What is rare: two of everything, and as much of everything as there may be. What comes was worked
//! out by another implementation of the same language.
use crate::call::{COMPILE, Call, EVAL, FIRST, RUN, STEPS};
use std::test::Fail;

const STAGES: [&str; 3] = ["stages", "p.lift", "s.lift"];

const RUN_STAGES: [&str; 4] = ["run-stages", "p.lift", "s.lift", "l.json"];

// nine kernels, each with a launch
const NINE: Call<'static> = Call {
    program: "input xs: [u32; 4]; output map(\\x. add(x, 9), map(\\x. add(x, 8), map(\\x. add(x, 7), map(\\x. add(x, 6), map(\\x. add(x, 5), map(\\x. add(x, 4), map(\\x. add(x, 3), map(\\x. add(x, 2), map(\\x. add(x, 1), xs)))))))))",
    script: "at 0.0.0.0.0.0.0.0 to-glb\nat 0.0.0.0.0.0.0 to-glb\nat 0.0.0.0.0.0 to-glb\nat 0.0.0.0.0 to-glb\nat 0.0.0.0 to-glb\nat 0.0.0 to-glb\nat 0.0 to-glb\nat 0 to-glb\nat . to-glb\nat 0 then\nat 0.0.0 then\nat 0.0.0.0.0 then\nat 0.0.0.0.0.0.0 then\nat 0.0.0.0.0.0.0.0.0 then\nat 0.0.0.0.0.0.0.0.0.0.0 then\nat 0.0.0.0.0.0.0.0.0.0.0.0.0 then\nat 0.0.0.0.0.0.0.0.0.0.0.0.0.0.0 then",
    launch: "{\"launches\":[{\"global\":2,\"local\":1},{\"global\":2,\"local\":1},{\"global\":2,\"local\":1},{\"global\":2,\"local\":1},{\"global\":2,\"local\":1},{\"global\":2,\"local\":1},{\"global\":2,\"local\":1},{\"global\":2,\"local\":1},{\"global\":2,\"local\":1}],\"sizes\":{},\"inputs\":{\"xs\":[1,2,3,4]}}",
    ..FIRST
};

const NINE_RUN_STAGES: &str = "{\"value\":[46,47,48,49],\"events\":126,\"releases\":0}\n";

// twelve kernels, the last of which has as many inputs
const TWELVE: Call<'static> = Call {
    program: "input xs: [u32; 4]; output map(\\x. add(x, 12), map(\\x. add(x, 11), map(\\x. add(x, 10), map(\\x. add(x, 9), map(\\x. add(x, 8), map(\\x. add(x, 7), map(\\x. add(x, 6), map(\\x. add(x, 5), map(\\x. add(x, 4), map(\\x. add(x, 3), map(\\x. add(x, 2), map(\\x. add(x, 1), xs))))))))))))",
    script: "at 0.0.0.0.0.0.0.0.0.0.0 to-glb\nat 0.0.0.0.0.0.0.0.0.0 to-glb\nat 0.0.0.0.0.0.0.0.0 to-glb\nat 0.0.0.0.0.0.0.0 to-glb\nat 0.0.0.0.0.0.0 to-glb\nat 0.0.0.0.0.0 to-glb\nat 0.0.0.0.0 to-glb\nat 0.0.0.0 to-glb\nat 0.0.0 to-glb\nat 0.0 to-glb\nat 0 to-glb\nat . to-glb\nat 0 then\nat 0.0.0 then\nat 0.0.0.0.0 then\nat 0.0.0.0.0.0.0 then\nat 0.0.0.0.0.0.0.0.0 then\nat 0.0.0.0.0.0.0.0.0.0.0 then\nat 0.0.0.0.0.0.0.0.0.0.0.0.0 then\nat 0.0.0.0.0.0.0.0.0.0.0.0.0.0.0 then\nat 0.0.0.0.0.0.0.0.0.0.0.0.0.0.0.0.0 then\nat 0.0.0.0.0.0.0.0.0.0.0.0.0.0.0.0.0.0.0 then\nat 0.0.0.0.0.0.0.0.0.0.0.0.0.0.0.0.0.0.0.0.0 then",
    launch: "{\"launches\":[{\"global\":2,\"local\":1},{\"global\":2,\"local\":1},{\"global\":2,\"local\":1},{\"global\":2,\"local\":1},{\"global\":2,\"local\":1},{\"global\":2,\"local\":1},{\"global\":2,\"local\":1},{\"global\":2,\"local\":1},{\"global\":2,\"local\":1},{\"global\":2,\"local\":1},{\"global\":2,\"local\":1},{\"global\":2,\"local\":1}],\"sizes\":{},\"inputs\":{\"xs\":[1,2,3,4]}}",
    ..FIRST
};

const TWELVE_STAGES: &str =
    "__kernel void lift0(__global const uint *a0, __global uint *o0)\n{\n  uint v0;\n  for (uint i0 = (uint)get_global_id(0); i0 < 4u; i0 += (uint)get_global_size(0)) {\n    v0 = a0[i0];\n    o0[i0] = (v0 + 1u);\n  }\n}\n__kernel void lift1(__global const uint *a0, __global const uint *a1, __global uint *o0)\n{\n  uint v0;\n  for (uint i0 = (uint)get_global_id(0); i0 < 4u; i0 += (uint)get_global_size(0)) {\n    v0 = a1[i0];\n    o0[i0] = (v0 + 2u);\n  }\n}\n__kernel void lift2(__global const uint *a0, __global const uint *a1, __global const uint *a2, __global uint *o0)\n{\n  uint v0;\n  for (uint i0 = (uint)get_global_id(0); i0 < 4u; i0 += (uint)get_global_size(0)) {\n    v0 = a2[i0];\n    o0[i0] = (v0 + 3u);\n  }\n}\n__kernel void lift3(__global const uint *a0, __global const uint *a1, __global const uint *a2, __global const uint *a3, __global uint *o0)\n{\n  uint v0;\n  for (uint i0 = (uint)get_global_id(0); i0 < 4u; i0 += (uint)get_global_size(0)) {\n    v0 = a3[i0];\n    o0[i0] = (v0 + 4u);\n  }\n}\n__kernel void lift4(__global const uint *a0, __global const uint *a1, __global const uint *a2, __global const uint *a3, __global const uint *a4, __global uint *o0)\n{\n  uint v0;\n  for (uint i0 = (uint)get_global_id(0); i0 < 4u; i0 += (uint)get_global_size(0)) {\n    v0 = a4[i0];\n    o0[i0] = (v0 + 5u);\n  }\n}\n__kernel void lift5(__global const uint *a0, __global const uint *a1, __global const uint *a2, __global const uint *a3, __global const uint *a4, __global const uint *a5, __global uint *o0)\n{\n  uint v0;\n  for (uint i0 = (uint)get_global_id(0); i0 < 4u; i0 += (uint)get_global_size(0)) {\n    v0 = a5[i0];\n    o0[i0] = (v0 + 6u);\n  }\n}\n__kernel void lift6(__global const uint *a0, __global const uint *a1, __global const uint *a2, __global const uint *a3, __global const uint *a4, __global const uint *a5, __global const uint *a6, __global uint *o0)\n{\n  uint v0;\n  for (uint i0 = (uint)get_global_id(0); i0 < 4u; i0 += (uint)get_global_size(0)) {\n    v0 = a6[i0];\n    o0[i0] = (v0 + 7u);\n  }\n}\n__kernel void lift7(__global const uint *a0, __global const uint *a1, __global const uint *a2, __global const uint *a3, __global const uint *a4, __global const uint *a5, __global const uint *a6, __global const uint *a7, __global uint *o0)\n{\n  uint v0;\n  for (uint i0 = (uint)get_global_id(0); i0 < 4u; i0 += (uint)get_global_size(0)) {\n    v0 = a7[i0];\n    o0[i0] = (v0 + 8u);\n  }\n}\n__kernel void lift8(__global const uint *a0, __global const uint *a1, __global const uint *a2, __global const uint *a3, __global const uint *a4, __global const uint *a5, __global const uint *a6, __global const uint *a7, __global const uint *a8, __global uint *o0)\n{\n  uint v0;\n  for (uint i0 = (uint)get_global_id(0); i0 < 4u; i0 += (uint)get_global_size(0)) {\n    v0 = a8[i0];\n    o0[i0] = (v0 + 9u);\n  }\n}\n__kernel void lift9(__global const uint *a0, __global const uint *a1, __global const uint *a2, __global const uint *a3, __global const uint *a4, __global const uint *a5, __global const uint *a6, __global const uint *a7, __global const uint *a8, __global const uint *a9, __global uint *o0)\n{\n  uint v0;\n  for (uint i0 = (uint)get_global_id(0); i0 < 4u; i0 += (uint)get_global_size(0)) {\n    v0 = a9[i0];\n    o0[i0] = (v0 + 10u);\n  }\n}\n__kernel void lift10(__global const uint *a0, __global const uint *a1, __global const uint *a2, __global const uint *a3, __global const uint *a4, __global const uint *a5, __global const uint *a6, __global const uint *a7, __global const uint *a8, __global const uint *a9, __global const uint *a10, __global uint *o0)\n{\n  uint v0;\n  for (uint i0 = (uint)get_global_id(0); i0 < 4u; i0 += (uint)get_global_size(0)) {\n    v0 = a10[i0];\n    o0[i0] = (v0 + 11u);\n  }\n}\n__kernel void lift11(__global const uint *a0, __global const uint *a1, __global const uint *a2, __global const uint *a3, __global const uint *a4, __global const uint *a5, __global const uint *a6, __global const uint *a7, __global const uint *a8, __global const uint *a9, __global const uint *a10, __global const uint *a11, __global uint *o0)\n{\n  uint v0;\n  for (uint i0 = (uint)get_global_id(0); i0 < 4u; i0 += (uint)get_global_size(0)) {\n    v0 = a11[i0];\n    o0[i0] = (v0 + 12u);\n  }\n}\n";

const TWELVE_RUN_STAGES: &str = "{\"value\":[79,80,81,82],\"events\":168,\"releases\":0}\n";

// sixteen kernels, as many as there may be
const SIXTEEN: Call<'static> = Call {
    program: "input xs: [u32; 4]; output map(\\x. add(x, 16), map(\\x. add(x, 15), map(\\x. add(x, 14), map(\\x. add(x, 13), map(\\x. add(x, 12), map(\\x. add(x, 11), map(\\x. add(x, 10), map(\\x. add(x, 9), map(\\x. add(x, 8), map(\\x. add(x, 7), map(\\x. add(x, 6), map(\\x. add(x, 5), map(\\x. add(x, 4), map(\\x. add(x, 3), map(\\x. add(x, 2), map(\\x. add(x, 1), xs))))))))))))))))",
    script: "at 0.0.0.0.0.0.0.0.0.0.0.0.0.0.0 to-glb\nat 0.0.0.0.0.0.0.0.0.0.0.0.0.0 to-glb\nat 0.0.0.0.0.0.0.0.0.0.0.0.0 to-glb\nat 0.0.0.0.0.0.0.0.0.0.0.0 to-glb\nat 0.0.0.0.0.0.0.0.0.0.0 to-glb\nat 0.0.0.0.0.0.0.0.0.0 to-glb\nat 0.0.0.0.0.0.0.0.0 to-glb\nat 0.0.0.0.0.0.0.0 to-glb\nat 0.0.0.0.0.0.0 to-glb\nat 0.0.0.0.0.0 to-glb\nat 0.0.0.0.0 to-glb\nat 0.0.0.0 to-glb\nat 0.0.0 to-glb\nat 0.0 to-glb\nat 0 to-glb\nat . to-glb\nat 0 then\nat 0.0.0 then\nat 0.0.0.0.0 then\nat 0.0.0.0.0.0.0 then\nat 0.0.0.0.0.0.0.0.0 then\nat 0.0.0.0.0.0.0.0.0.0.0 then\nat 0.0.0.0.0.0.0.0.0.0.0.0.0 then\nat 0.0.0.0.0.0.0.0.0.0.0.0.0.0.0 then\nat 0.0.0.0.0.0.0.0.0.0.0.0.0.0.0.0.0 then\nat 0.0.0.0.0.0.0.0.0.0.0.0.0.0.0.0.0.0.0 then\nat 0.0.0.0.0.0.0.0.0.0.0.0.0.0.0.0.0.0.0.0.0 then\nat 0.0.0.0.0.0.0.0.0.0.0.0.0.0.0.0.0.0.0.0.0.0.0 then\nat 0.0.0.0.0.0.0.0.0.0.0.0.0.0.0.0.0.0.0.0.0.0.0.0.0 then\nat 0.0.0.0.0.0.0.0.0.0.0.0.0.0.0.0.0.0.0.0.0.0.0.0.0.0.0 then\nat 0.0.0.0.0.0.0.0.0.0.0.0.0.0.0.0.0.0.0.0.0.0.0.0.0.0.0.0.0 then",
    launch: "{\"launches\":[{\"global\":2,\"local\":1},{\"global\":2,\"local\":1},{\"global\":2,\"local\":1},{\"global\":2,\"local\":1},{\"global\":2,\"local\":1},{\"global\":2,\"local\":1},{\"global\":2,\"local\":1},{\"global\":2,\"local\":1},{\"global\":2,\"local\":1},{\"global\":2,\"local\":1},{\"global\":2,\"local\":1},{\"global\":2,\"local\":1},{\"global\":2,\"local\":1},{\"global\":2,\"local\":1},{\"global\":2,\"local\":1},{\"global\":2,\"local\":1}],\"sizes\":{},\"inputs\":{\"xs\":[1,2,3,4]}}",
    ..FIRST
};

const SIXTEEN_STAGES: &str =
    "__kernel void lift0(__global const uint *a0, __global uint *o0)\n{\n  uint v0;\n  for (uint i0 = (uint)get_global_id(0); i0 < 4u; i0 += (uint)get_global_size(0)) {\n    v0 = a0[i0];\n    o0[i0] = (v0 + 1u);\n  }\n}\n__kernel void lift1(__global const uint *a0, __global const uint *a1, __global uint *o0)\n{\n  uint v0;\n  for (uint i0 = (uint)get_global_id(0); i0 < 4u; i0 += (uint)get_global_size(0)) {\n    v0 = a1[i0];\n    o0[i0] = (v0 + 2u);\n  }\n}\n__kernel void lift2(__global const uint *a0, __global const uint *a1, __global const uint *a2, __global uint *o0)\n{\n  uint v0;\n  for (uint i0 = (uint)get_global_id(0); i0 < 4u; i0 += (uint)get_global_size(0)) {\n    v0 = a2[i0];\n    o0[i0] = (v0 + 3u);\n  }\n}\n__kernel void lift3(__global const uint *a0, __global const uint *a1, __global const uint *a2, __global const uint *a3, __global uint *o0)\n{\n  uint v0;\n  for (uint i0 = (uint)get_global_id(0); i0 < 4u; i0 += (uint)get_global_size(0)) {\n    v0 = a3[i0];\n    o0[i0] = (v0 + 4u);\n  }\n}\n__kernel void lift4(__global const uint *a0, __global const uint *a1, __global const uint *a2, __global const uint *a3, __global const uint *a4, __global uint *o0)\n{\n  uint v0;\n  for (uint i0 = (uint)get_global_id(0); i0 < 4u; i0 += (uint)get_global_size(0)) {\n    v0 = a4[i0];\n    o0[i0] = (v0 + 5u);\n  }\n}\n__kernel void lift5(__global const uint *a0, __global const uint *a1, __global const uint *a2, __global const uint *a3, __global const uint *a4, __global const uint *a5, __global uint *o0)\n{\n  uint v0;\n  for (uint i0 = (uint)get_global_id(0); i0 < 4u; i0 += (uint)get_global_size(0)) {\n    v0 = a5[i0];\n    o0[i0] = (v0 + 6u);\n  }\n}\n__kernel void lift6(__global const uint *a0, __global const uint *a1, __global const uint *a2, __global const uint *a3, __global const uint *a4, __global const uint *a5, __global const uint *a6, __global uint *o0)\n{\n  uint v0;\n  for (uint i0 = (uint)get_global_id(0); i0 < 4u; i0 += (uint)get_global_size(0)) {\n    v0 = a6[i0];\n    o0[i0] = (v0 + 7u);\n  }\n}\n__kernel void lift7(__global const uint *a0, __global const uint *a1, __global const uint *a2, __global const uint *a3, __global const uint *a4, __global const uint *a5, __global const uint *a6, __global const uint *a7, __global uint *o0)\n{\n  uint v0;\n  for (uint i0 = (uint)get_global_id(0); i0 < 4u; i0 += (uint)get_global_size(0)) {\n    v0 = a7[i0];\n    o0[i0] = (v0 + 8u);\n  }\n}\n__kernel void lift8(__global const uint *a0, __global const uint *a1, __global const uint *a2, __global const uint *a3, __global const uint *a4, __global const uint *a5, __global const uint *a6, __global const uint *a7, __global const uint *a8, __global uint *o0)\n{\n  uint v0;\n  for (uint i0 = (uint)get_global_id(0); i0 < 4u; i0 += (uint)get_global_size(0)) {\n    v0 = a8[i0];\n    o0[i0] = (v0 + 9u);\n  }\n}\n__kernel void lift9(__global const uint *a0, __global const uint *a1, __global const uint *a2, __global const uint *a3, __global const uint *a4, __global const uint *a5, __global const uint *a6, __global const uint *a7, __global const uint *a8, __global const uint *a9, __global uint *o0)\n{\n  uint v0;\n  for (uint i0 = (uint)get_global_id(0); i0 < 4u; i0 += (uint)get_global_size(0)) {\n    v0 = a9[i0];\n    o0[i0] = (v0 + 10u);\n  }\n}\n__kernel void lift10(__global const uint *a0, __global const uint *a1, __global const uint *a2, __global const uint *a3, __global const uint *a4, __global const uint *a5, __global const uint *a6, __global const uint *a7, __global const uint *a8, __global const uint *a9, __global const uint *a10, __global uint *o0)\n{\n  uint v0;\n  for (uint i0 = (uint)get_global_id(0); i0 < 4u; i0 += (uint)get_global_size(0)) {\n    v0 = a10[i0];\n    o0[i0] = (v0 + 11u);\n  }\n}\n__kernel void lift11(__global const uint *a0, __global const uint *a1, __global const uint *a2, __global const uint *a3, __global const uint *a4, __global const uint *a5, __global const uint *a6, __global const uint *a7, __global const uint *a8, __global const uint *a9, __global const uint *a10, __global const uint *a11, __global uint *o0)\n{\n  uint v0;\n  for (uint i0 = (uint)get_global_id(0); i0 < 4u; i0 += (uint)get_global_size(0)) {\n    v0 = a11[i0];\n    o0[i0] = (v0 + 12u);\n  }\n}\n__kernel void lift12(__global const uint *a0, __global const uint *a1, __global const uint *a2, __global const uint *a3, __global const uint *a4, __global const uint *a5, __global const uint *a6, __global const uint *a7, __global const uint *a8, __global const uint *a9, __global const uint *a10, __global const uint *a11, __global const uint *a12, __global uint *o0)\n{\n  uint v0;\n  for (uint i0 = (uint)get_global_id(0); i0 < 4u; i0 += (uint)get_global_size(0)) {\n    v0 = a12[i0];\n    o0[i0] = (v0 + 13u);\n  }\n}\n__kernel void lift13(__global const uint *a0, __global const uint *a1, __global const uint *a2, __global const uint *a3, __global const uint *a4, __global const uint *a5, __global const uint *a6, __global const uint *a7, __global const uint *a8, __global const uint *a9, __global const uint *a10, __global const uint *a11, __global const uint *a12, __global const uint *a13, __global uint *o0)\n{\n  uint v0;\n  for (uint i0 = (uint)get_global_id(0); i0 < 4u; i0 += (uint)get_global_size(0)) {\n    v0 = a13[i0];\n    o0[i0] = (v0 + 14u);\n  }\n}\n__kernel void lift14(__global const uint *a0, __global const uint *a1, __global const uint *a2, __global const uint *a3, __global const uint *a4, __global const uint *a5, __global const uint *a6, __global const uint *a7, __global const uint *a8, __global const uint *a9, __global const uint *a10, __global const uint *a11, __global const uint *a12, __global const uint *a13, __global const uint *a14, __global uint *o0)\n{\n  uint v0;\n  for (uint i0 = (uint)get_global_id(0); i0 < 4u; i0 += (uint)get_global_size(0)) {\n    v0 = a14[i0];\n    o0[i0] = (v0 + 15u);\n  }\n}\n__kernel void lift15(__global const uint *a0, __global const uint *a1, __global const uint *a2, __global const uint *a3, __global const uint *a4, __global const uint *a5, __global const uint *a6, __global const uint *a7, __global const uint *a8, __global const uint *a9, __global const uint *a10, __global const uint *a11, __global const uint *a12, __global const uint *a13, __global const uint *a14, __global const uint *a15, __global uint *o0)\n{\n  uint v0;\n  for (uint i0 = (uint)get_global_id(0); i0 < 4u; i0 += (uint)get_global_size(0)) {\n    v0 = a15[i0];\n    o0[i0] = (v0 + 16u);\n  }\n}\n";

const SIXTEEN_RUN_STAGES: &str = "{\"value\":[137,138,139,140],\"events\":224,\"releases\":0}\n";

// a schedule of nine numbers
const NINE_NUMBERS: Call<'static> = Call {
    program: "input xs: [u32; 4]; output map(\\x. add(x, 3), map(\\x. add(x, 2), map(\\x. add(x, 1), xs)))",
    script: "at 0.0 to-glb\nat 0 to-glb\nat . to-glb\nat 0 then\nat 0.0.0 then",
    launch: "{\"launches\":[{\"global\":2,\"local\":1},{\"global\":2,\"local\":1},{\"global\":2,\"local\":1}],\"sizes\":{},\"inputs\":{\"xs\":[1,2,3,4]},\"schedule\":[1,0,1,0,1,0,1,0,1]}",
    ..FIRST
};

const NINE_NUMBERS_RUN_STAGES: &str = "{\"value\":[7,8,9,10],\"events\":42,\"releases\":0}\n";

// a kernel of two that makes pairs
const PAIRS: Call<'static> = Call {
    program: "input xs: [u32; 4]; output map(\\p. add(first(p), second(p)), map(\\x. pair(x, 1), xs))",
    script: "at 0 to-glb\nat 0 then\nat . to-glb",
    launch: "{\"launches\":[{\"global\":2,\"local\":1},{\"global\":2,\"local\":1}],\"sizes\":{},\"inputs\":{\"xs\":[1,2,3,4]}}",
    ..FIRST
};

const PAIRS_STAGES: &str =
    "__kernel void lift0(__global const uint *a0, __global uint *o0, __global uint *o1)\n{\n  uint v0;\n  for (uint i0 = (uint)get_global_id(0); i0 < 4u; i0 += (uint)get_global_size(0)) {\n    v0 = a0[i0];\n    o0[i0] = v0;\n    o1[i0] = 1u;\n  }\n}\n__kernel void lift1(__global const uint *a0, __global const uint *a1, __global const uint *a2, __global uint *o0)\n{\n  uint v0;\n  uint v1;\n  for (uint i0 = (uint)get_global_id(0); i0 < 4u; i0 += (uint)get_global_size(0)) {\n    v0 = a1[i0];\n    v1 = a2[i0];\n    o0[i0] = (v0 + v1);\n  }\n}\n";

const PAIRS_RUN_STAGES: &str = "{\"value\":[2,3,4,5],\"events\":36,\"releases\":0}\n";

// six inputs, and a kernel of two
const SIX_INPUTS: Call<'static> = Call {
    program: "input x0: [u32; 4]; input x1: [u32; 4]; input x2: [u32; 4]; input x3: [u32; 4]; input x4: [u32; 4]; input x5: [u32; 4]; output map(\\p. add(first(p), second(p)), zip(x0, map(\\x. add(x, 1), x1)))",
    script: "at 0.1 to-glb\nat 0.1 then\nat . to-glb",
    launch: "{\"launches\":[{\"global\":2,\"local\":1},{\"global\":2,\"local\":1}],\"sizes\":{},\"inputs\":{\"x0\":[1,2,3,4],\"x1\":[1,2,3,4],\"x2\":[1,2,3,4],\"x3\":[1,2,3,4],\"x4\":[1,2,3,4],\"x5\":[1,2,3,4]}}",
    ..FIRST
};

const SIX_INPUTS_STAGES: &str =
    "__kernel void lift0(__global const uint *a0, __global const uint *a1, __global const uint *a2, __global const uint *a3, __global const uint *a4, __global const uint *a5, __global uint *o0)\n{\n  uint v0;\n  for (uint i0 = (uint)get_global_id(0); i0 < 4u; i0 += (uint)get_global_size(0)) {\n    v0 = a1[i0];\n    o0[i0] = (v0 + 1u);\n  }\n}\n__kernel void lift1(__global const uint *a0, __global const uint *a1, __global const uint *a2, __global const uint *a3, __global const uint *a4, __global const uint *a5, __global const uint *a6, __global uint *o0)\n{\n  uint v0;\n  uint v1;\n  for (uint i0 = (uint)get_global_id(0); i0 < 4u; i0 += (uint)get_global_size(0)) {\n    v0 = a0[i0];\n    v1 = a6[i0];\n    o0[i0] = (v0 + v1);\n  }\n}\n";

const SIX_INPUTS_RUN_STAGES: &str = "{\"value\":[3,5,7,9],\"events\":32,\"releases\":0}\n";

// an argument computed below a select, and a cut
const BELOW_SELECT: Call<'static> = Call {
    program: "input xs: [u32; 4]; output let k = select(let y = map(\\z. z, xs) in 1, 2, 3) in map(\\x. add(x, k), xs)",
    script: "at 0.0.0 to-glb\nat 0.0.0 then\nat 1 to-seq",
    launch: "{\"launches\":[{\"global\":2,\"local\":1},{\"global\":1,\"local\":1}],\"sizes\":{},\"inputs\":{\"xs\":[1,2,3,4]}}",
    ..FIRST
};

// an array from its end, of a length that is a product
const TURNED: Call<'static> = Call {
    program: "size N from 1 to 8; input xs: [u32; 2*N]; output map(\\x. add(x, 1), reverse(xs))",
    script: "at . to-seq",
    launch: "{\"global\":1,\"local\":1,\"sizes\":{\"N\":2},\"inputs\":{\"xs\":[1,2,3,4]}}",
    ..FIRST
};

const TURNED_COMPILE: &str =
    "__kernel void lift(__global const uint *a0, __global uint *o0, const uint s0)\n{\n  uint v0;\n  for (uint i0 = 0u; i0 < (2u * s0); i0 += 1u) {\n    v0 = a0[(((2u * s0) - 1u) - i0)];\n    o0[i0] = (v0 + 1u);\n  }\n}\n";

const TURNED_RUN: &str = "{\"value\":[5,4,3,2],\"events\":13,\"releases\":0}\n";

const TURNED_EVAL: &str = "{\"value\":[5,4,3,2]}\n";

// a stride by a product of a number and a size
const BY_PRODUCT: Call<'static> = Call {
    program: "size N from 1 to 8; input xs: [u32; 4*N]; output map(\\x. add(x, 1), stride(2*N, xs))",
    script: "at . to-seq",
    launch: "{\"global\":1,\"local\":1,\"sizes\":{\"N\":1},\"inputs\":{\"xs\":[1,2,3,4]}}",
    ..FIRST
};

const BY_PRODUCT_COMPILE: &str =
    "__kernel void lift(__global const uint *a0, __global uint *o0, const uint s0)\n{\n  uint v0;\n  for (uint i0 = 0u; i0 < (4u * s0); i0 += 1u) {\n    v0 = a0[(((i0 % 2u) * (2u * s0)) + (i0 / 2u))];\n    o0[i0] = (v0 + 1u);\n  }\n}\n";

const BY_PRODUCT_RUN: &str = "{\"value\":[2,4,3,5],\"events\":13,\"releases\":0}\n";

// a stride by three factors
const BY_THREE: Call<'static> = Call {
    program: "size N from 1 to 8; size M from 1 to 8; input xs: [u32; 4*N*M]; output map(\\x. add(x, 1), stride(2*N*M, xs))",
    script: "at 0 stride-layout\nat . to-seq",
    launch: "{\"global\":1,\"local\":1,\"sizes\":{\"N\":1,\"M\":1},\"inputs\":{\"xs\":[1,2,3,4]}}",
    ..FIRST
};

const BY_THREE_RUN: &str = "{\"value\":[2,4,3,5],\"events\":13,\"releases\":0}\n";

const BY_THREE_STEPS: &str =
    "map(\\_0. add(_0, 1), stride(2*N*M, xs))\nmap(\\_0. add(_0, 1), join(transpose(split(2*N*M, xs))))\nmapSeq(\\_0. add(_0, 1), join(transpose(split(2*N*M, xs))))\n";

// three phases in a group that is there once
const IN_ONE_GROUP: Call<'static> = Call {
    program: "input xs: [u32; 4]; output join(map(\\t. map(\\x. add(x, 1), reverse(map(\\y. mul(y, 2), reverse(map(\\z. add(z, 3), t))))), split(4, xs)))",
    script: "launch local 4\nat 0 to-wrg\nat 0.1 to-lcl\nat 0.1.0.0 to-lcl\nat 0.1.0.0.0.0 to-lcl\nat 0.1.0.0 local\nat 0.1.0.0.0.0.0 local",
    launch: "{\"global\":4,\"local\":4,\"sizes\":{},\"inputs\":{\"xs\":[1,2,3,4]}}",
    ..FIRST
};

const IN_ONE_GROUP_RUN: &str = "{\"value\":[9,11,13,15],\"events\":30,\"releases\":2}\n";

// items beyond the last turn, behind two local arrays
const BEHIND_IFS: Call<'static> = Call {
    program: "input xs: [u32; 4]; output join(map(\\t. map(\\x. add(x, 1), reverse(map(\\y. mul(y, 2), reverse(map(\\z. add(z, 3), t))))), split(4, xs)))",
    script: "launch local 8\nat 0 to-wrg\nat 0.1 to-lcl\nat 0.1.0.0 to-lcl\nat 0.1.0.0.0.0 to-lcl\nat 0.1.0.0 local\nat 0.1.0.0.0.0.0 local",
    launch: "{\"global\":8,\"local\":8,\"sizes\":{},\"inputs\":{\"xs\":[1,2,3,4]}}",
    ..FIRST
};

const BEHIND_IFS_RUN: &str = "{\"value\":[9,11,13,15],\"events\":58,\"releases\":2}\n";

#[test]
fn nine_kernels_run(rt: HostRuntime) -> Result<(), Fail> {
    assert!(rt; NINE.ends(rt.alloc(), &RUN_STAGES, 0, NINE_RUN_STAGES, "")?);
    Ok(())
}

#[test]
fn twelve_kernels_run(rt: HostRuntime) -> Result<(), Fail> {
    assert!(rt; TWELVE.ends(rt.alloc(), &STAGES, 0, TWELVE_STAGES, "")?);
    assert!(rt; TWELVE.ends(rt.alloc(), &RUN_STAGES, 0, TWELVE_RUN_STAGES, "")?);
    Ok(())
}

#[test]
fn sixteen_kernels_run(rt: HostRuntime) -> Result<(), Fail> {
    assert!(rt; SIXTEEN.ends(rt.alloc(), &STAGES, 0, SIXTEEN_STAGES, "")?);
    assert!(rt; SIXTEEN.ends(rt.alloc(), &RUN_STAGES, 0, SIXTEEN_RUN_STAGES, "")?);
    Ok(())
}

#[test]
fn a_schedule_has_nine_numbers(rt: HostRuntime) -> Result<(), Fail> {
    assert!(rt; NINE_NUMBERS.ends(rt.alloc(), &RUN_STAGES, 0, NINE_NUMBERS_RUN_STAGES, "")?);
    Ok(())
}

#[test]
fn kernels_hand_on_pairs(rt: HostRuntime) -> Result<(), Fail> {
    assert!(rt; PAIRS.ends(rt.alloc(), &STAGES, 0, PAIRS_STAGES, "")?);
    assert!(rt; PAIRS.ends(rt.alloc(), &RUN_STAGES, 0, PAIRS_RUN_STAGES, "")?);
    Ok(())
}

#[test]
fn kernels_have_six_inputs(rt: HostRuntime) -> Result<(), Fail> {
    assert!(rt; SIX_INPUTS.ends(rt.alloc(), &STAGES, 0, SIX_INPUTS_STAGES, "")?);
    assert!(rt; SIX_INPUTS.ends(rt.alloc(), &RUN_STAGES, 0, SIX_INPUTS_RUN_STAGES, "")?);
    Ok(())
}

#[test]
fn a_cut_below_a_select_is_refused(rt: HostRuntime) -> Result<(), Fail> {
    assert!(rt; BELOW_SELECT.ends(rt.alloc(), &STAGES, 11, "", "lift: nest: N7 at 0.0\n")?);
    assert!(rt; BELOW_SELECT.ends(rt.alloc(), &RUN_STAGES, 11, "", "lift: nest: N7 at 0.0\n")?);
    Ok(())
}

#[test]
fn an_array_of_a_product_is_turned(rt: HostRuntime) -> Result<(), Fail> {
    assert!(rt; TURNED.ends(rt.alloc(), &COMPILE, 0, TURNED_COMPILE, "")?);
    assert!(rt; TURNED.ends(rt.alloc(), &RUN, 0, TURNED_RUN, "")?);
    assert!(rt; TURNED.ends(rt.alloc(), &EVAL, 0, TURNED_EVAL, "")?);
    Ok(())
}

#[test]
fn a_stride_is_a_product(rt: HostRuntime) -> Result<(), Fail> {
    assert!(rt; BY_PRODUCT.ends(rt.alloc(), &COMPILE, 0, BY_PRODUCT_COMPILE, "")?);
    assert!(rt; BY_PRODUCT.ends(rt.alloc(), &RUN, 0, BY_PRODUCT_RUN, "")?);
    Ok(())
}

#[test]
fn a_stride_has_three_factors(rt: HostRuntime) -> Result<(), Fail> {
    assert!(rt; BY_THREE.ends(rt.alloc(), &RUN, 0, BY_THREE_RUN, "")?);
    assert!(rt; BY_THREE.ends(rt.alloc(), &STEPS, 0, BY_THREE_STEPS, "")?);
    Ok(())
}

#[test]
fn three_phases_stand_in_one_group(rt: HostRuntime) -> Result<(), Fail> {
    assert!(rt; IN_ONE_GROUP.ends(rt.alloc(), &RUN, 0, IN_ONE_GROUP_RUN, "")?);
    Ok(())
}

#[test]
fn two_local_arrays_are_behind_ifs(rt: HostRuntime) -> Result<(), Fail> {
    assert!(rt; BEHIND_IFS.ends(rt.alloc(), &RUN, 0, BEHIND_IFS_RUN, "")?);
    Ok(())
}
