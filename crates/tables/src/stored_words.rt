// What each byte takes and leaves, its temp effect and its sort, in one word (specs/Packed.antt); 0 where the byte is unassigned.
pub const WORDS: [u16; 256] = [
    68, // 00 LOAD_CONST_I32
    68, // 01 LOAD_CONST_I64
    68, // 02 LOAD_CONST_F32
    68, // 03 LOAD_CONST_F64
    68, // 04 LOAD_FALSE
    68, // 05 LOAD_TRUE
    0, // 06
    0, // 07
    84, // 08 LOAD_CONST_STR
    0, // 09
    0, // 0A
    0, // 0B
    68, // 0C LOAD_VAR_I32
    68, // 0D LOAD_VAR_I64
    68, // 0E LOAD_VAR_F32
    68, // 0F LOAD_VAR_F64
    65, // 10 STORE_VAR_I32
    65, // 11 STORE_VAR_I64
    65, // 12 STORE_VAR_F32
    65, // 13 STORE_VAR_F64
    69, // 14 LOAD_INDIRECT
    0, // 15
    0, // 16
    0, // 17
    66, // 18 STORE_INDIRECT
    0, // 19
    0, // 1A
    0, // 1B
    69, // 1C TRUNC_I8
    69, // 1D TRUNC_U8
    69, // 1E TRUNC_I16
    69, // 1F TRUNC_U16
    70, // 20 ADD_I32
    70, // 21 ADD_I64
    70, // 22 ADD_F32
    70, // 23 ADD_F64
    70, // 24 SUB_I32
    70, // 25 SUB_I64
    70, // 26 SUB_F32
    70, // 27 SUB_F64
    70, // 28 MUL_I32
    70, // 29 MUL_I64
    70, // 2A MUL_F32
    70, // 2B MUL_F64
    69, // 2C NEG_I32
    69, // 2D NEG_I64
    69, // 2E NEG_F32
    69, // 2F NEG_F64
    70, // 30 DIV_I32
    70, // 31 DIV_I64
    70, // 32 DIV_F32
    70, // 33 DIV_F64
    70, // 34 DIV_U32
    70, // 35 DIV_U64
    0, // 36
    0, // 37
    70, // 38 MOD_I32
    70, // 39 MOD_I64
    0, // 3A
    0, // 3B
    70, // 3C MOD_U32
    70, // 3D MOD_U64
    0, // 3E
    0, // 3F
    70, // 40 EQ_I32
    70, // 41 EQ_I64
    70, // 42 EQ_F32
    70, // 43 EQ_F64
    70, // 44 NE_I32
    70, // 45 NE_I64
    70, // 46 NE_F32
    70, // 47 NE_F64
    70, // 48 LT_I32
    70, // 49 LT_I64
    70, // 4A LT_F32
    70, // 4B LT_F64
    70, // 4C LE_I32
    70, // 4D LE_I64
    70, // 4E LE_F32
    70, // 4F LE_F64
    70, // 50 GT_I32
    70, // 51 GT_I64
    70, // 52 GT_F32
    70, // 53 GT_F64
    70, // 54 GE_I32
    70, // 55 GE_I64
    70, // 56 GE_F32
    70, // 57 GE_F64
    70, // 58 LT_U32
    70, // 59 LT_U64
    0, // 5A
    0, // 5B
    70, // 5C LE_U32
    70, // 5D LE_U64
    0, // 5E
    0, // 5F
    70, // 60 GT_U32
    70, // 61 GT_U64
    0, // 62
    0, // 63
    70, // 64 GE_U32
    70, // 65 GE_U64
    0, // 66
    0, // 67
    70, // 68 BIT_AND_32
    70, // 69 BIT_AND_64
    0, // 6A
    0, // 6B
    70, // 6C BIT_OR_32
    70, // 6D BIT_OR_64
    0, // 6E
    0, // 6F
    70, // 70 BIT_XOR_32
    70, // 71 BIT_XOR_64
    0, // 72
    0, // 73
    69, // 74 BIT_NOT_32
    69, // 75 BIT_NOT_64
    0, // 76
    0, // 77
    70, // 78 BOOL_AND
    70, // 79 BOOL_OR
    70, // 7A BOOL_XOR
    69, // 7B BOOL_NOT
    128, // 7C JMP
    0, // 7D
    0, // 7E
    0, // 7F
    129, // 80 JMP_IF_NOT
    0, // 81
    0, // 82
    0, // 83
    320, // 84 CALL
    0, // 85
    0, // 86
    0, // 87
    128, // 88 RET
    0, // 89
    0, // 8A
    0, // 8B
    128, // 8C RET_VOID
    0, // 8D
    0, // 8E
    0, // 8F
    65, // 90 POP
    68, // 91 DUP
    74, // 92 SWAP
    0, // 93
    256, // 94 BUILTIN
    0, // 95
    0, // 96
    0, // 97
    68, // 98 FB_LOAD_INSTANCE
    0, // 99
    0, // 9A
    0, // 9B
    65, // 9C FB_STORE_PARAM
    0, // 9D
    0, // 9E
    0, // 9F
    68, // A0 FB_LOAD_PARAM
    0, // A1
    0, // A2
    0, // A3
    192, // A4 FB_CALL
    0, // A5
    0, // A6
    0, // A7
    69, // A8 LOAD_ARRAY
    0, // A9
    0, // AA
    0, // AB
    66, // AC STORE_ARRAY
    65, // AD COPY_REGION
    65, // AE COPY_REGION_DEREF
    0, // AF
    69, // B0 LOAD_ARRAY_DEREF
    0, // B1
    0, // B2
    0, // B3
    66, // B4 STORE_ARRAY_DEREF
    0, // B5
    0, // B6
    0, // B7
    64, // B8 STR_INIT
    0, // B9
    0, // BA
    0, // BB
    84, // BC STR_LOAD_VAR
    0, // BD
    0, // BE
    0, // BF
    97, // C0 STR_STORE_VAR
    0, // C1
    0, // C2
    0, // C3
    68, // C4 LEN_STR
    0, // C5
    0, // C6
    0, // C7
    68, // C8 FIND_STR
    0, // C9
    0, // CA
    0, // CB
    86, // CC REPLACE_STR
    0, // CD
    0, // CE
    0, // CF
    85, // D0 INSERT_STR
    0, // D1
    0, // D2
    0, // D3
    86, // D4 DELETE_STR
    0, // D5
    0, // D6
    0, // D7
    85, // D8 LEFT_STR
    0, // D9
    0, // DA
    0, // DB
    85, // DC RIGHT_STR
    0, // DD
    0, // DE
    0, // DF
    86, // E0 MID_STR
    0, // E1
    0, // E2
    0, // E3
    84, // E4 CONCAT_STR
    0, // E5
    0, // E6
    0, // E7
    64, // E8 STR_INIT_ARRAY
    0, // E9
    0, // EA
    0, // EB
    85, // EC STR_LOAD_ARRAY_ELEM
    85, // ED STR_LOAD_ARRAY_DEREF
    0, // EE
    0, // EF
    98, // F0 STR_STORE_ARRAY_ELEM
    98, // F1 STR_STORE_ARRAY_DEREF
    0, // F2
    0, // F3
    128, // F4 CMP_BR_I32
    128, // F5 CMP_BR_I64
    0, // F6
    0, // F7
    384, // F8 METHOD_CALL
    0, // F9
    0, // FA
    0, // FB
    0, // FC
    0, // FD
    0, // FE
    0, // FF
];
