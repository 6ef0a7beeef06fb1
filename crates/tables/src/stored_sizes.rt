// The size of the instruction that starts with each byte, 0 where the byte is unassigned.
pub const SIZES: [u8; 256] = [
    3, // 00 LOAD_CONST_I32
    3, // 01 LOAD_CONST_I64
    3, // 02 LOAD_CONST_F32
    3, // 03 LOAD_CONST_F64
    1, // 04 LOAD_FALSE
    1, // 05 LOAD_TRUE
    0, // 06
    0, // 07
    3, // 08 LOAD_CONST_STR
    0, // 09
    0, // 0A
    0, // 0B
    3, // 0C LOAD_VAR_I32
    3, // 0D LOAD_VAR_I64
    3, // 0E LOAD_VAR_F32
    3, // 0F LOAD_VAR_F64
    3, // 10 STORE_VAR_I32
    3, // 11 STORE_VAR_I64
    3, // 12 STORE_VAR_F32
    3, // 13 STORE_VAR_F64
    1, // 14 LOAD_INDIRECT
    0, // 15
    0, // 16
    0, // 17
    1, // 18 STORE_INDIRECT
    0, // 19
    0, // 1A
    0, // 1B
    1, // 1C TRUNC_I8
    1, // 1D TRUNC_U8
    1, // 1E TRUNC_I16
    1, // 1F TRUNC_U16
    1, // 20 ADD_I32
    1, // 21 ADD_I64
    1, // 22 ADD_F32
    1, // 23 ADD_F64
    1, // 24 SUB_I32
    1, // 25 SUB_I64
    1, // 26 SUB_F32
    1, // 27 SUB_F64
    1, // 28 MUL_I32
    1, // 29 MUL_I64
    1, // 2A MUL_F32
    1, // 2B MUL_F64
    1, // 2C NEG_I32
    1, // 2D NEG_I64
    1, // 2E NEG_F32
    1, // 2F NEG_F64
    1, // 30 DIV_I32
    1, // 31 DIV_I64
    1, // 32 DIV_F32
    1, // 33 DIV_F64
    1, // 34 DIV_U32
    1, // 35 DIV_U64
    0, // 36
    0, // 37
    1, // 38 MOD_I32
    1, // 39 MOD_I64
    0, // 3A
    0, // 3B
    1, // 3C MOD_U32
    1, // 3D MOD_U64
    0, // 3E
    0, // 3F
    1, // 40 EQ_I32
    1, // 41 EQ_I64
    1, // 42 EQ_F32
    1, // 43 EQ_F64
    1, // 44 NE_I32
    1, // 45 NE_I64
    1, // 46 NE_F32
    1, // 47 NE_F64
    1, // 48 LT_I32
    1, // 49 LT_I64
    1, // 4A LT_F32
    1, // 4B LT_F64
    1, // 4C LE_I32
    1, // 4D LE_I64
    1, // 4E LE_F32
    1, // 4F LE_F64
    1, // 50 GT_I32
    1, // 51 GT_I64
    1, // 52 GT_F32
    1, // 53 GT_F64
    1, // 54 GE_I32
    1, // 55 GE_I64
    1, // 56 GE_F32
    1, // 57 GE_F64
    1, // 58 LT_U32
    1, // 59 LT_U64
    0, // 5A
    0, // 5B
    1, // 5C LE_U32
    1, // 5D LE_U64
    0, // 5E
    0, // 5F
    1, // 60 GT_U32
    1, // 61 GT_U64
    0, // 62
    0, // 63
    1, // 64 GE_U32
    1, // 65 GE_U64
    0, // 66
    0, // 67
    1, // 68 BIT_AND_32
    1, // 69 BIT_AND_64
    0, // 6A
    0, // 6B
    1, // 6C BIT_OR_32
    1, // 6D BIT_OR_64
    0, // 6E
    0, // 6F
    1, // 70 BIT_XOR_32
    1, // 71 BIT_XOR_64
    0, // 72
    0, // 73
    1, // 74 BIT_NOT_32
    1, // 75 BIT_NOT_64
    0, // 76
    0, // 77
    1, // 78 BOOL_AND
    1, // 79 BOOL_OR
    1, // 7A BOOL_XOR
    1, // 7B BOOL_NOT
    3, // 7C JMP
    0, // 7D
    0, // 7E
    0, // 7F
    3, // 80 JMP_IF_NOT
    0, // 81
    0, // 82
    0, // 83
    5, // 84 CALL
    0, // 85
    0, // 86
    0, // 87
    1, // 88 RET
    0, // 89
    0, // 8A
    0, // 8B
    1, // 8C RET_VOID
    0, // 8D
    0, // 8E
    0, // 8F
    1, // 90 POP
    1, // 91 DUP
    1, // 92 SWAP
    0, // 93
    3, // 94 BUILTIN
    0, // 95
    0, // 96
    0, // 97
    3, // 98 FB_LOAD_INSTANCE
    0, // 99
    0, // 9A
    0, // 9B
    2, // 9C FB_STORE_PARAM
    0, // 9D
    0, // 9E
    0, // 9F
    2, // A0 FB_LOAD_PARAM
    0, // A1
    0, // A2
    0, // A3
    3, // A4 FB_CALL
    0, // A5
    0, // A6
    0, // A7
    5, // A8 LOAD_ARRAY
    0, // A9
    0, // AA
    0, // AB
    5, // AC STORE_ARRAY
    7, // AD COPY_REGION
    7, // AE COPY_REGION_DEREF
    0, // AF
    5, // B0 LOAD_ARRAY_DEREF
    0, // B1
    0, // B2
    0, // B3
    5, // B4 STORE_ARRAY_DEREF
    0, // B5
    0, // B6
    0, // B7
    8, // B8 STR_INIT
    0, // B9
    0, // BA
    0, // BB
    5, // BC STR_LOAD_VAR
    0, // BD
    0, // BE
    0, // BF
    5, // C0 STR_STORE_VAR
    0, // C1
    0, // C2
    0, // C3
    5, // C4 LEN_STR
    0, // C5
    0, // C6
    0, // C7
    9, // C8 FIND_STR
    0, // C9
    0, // CA
    0, // CB
    9, // CC REPLACE_STR
    0, // CD
    0, // CE
    0, // CF
    9, // D0 INSERT_STR
    0, // D1
    0, // D2
    0, // D3
    5, // D4 DELETE_STR
    0, // D5
    0, // D6
    0, // D7
    5, // D8 LEFT_STR
    0, // D9
    0, // DA
    0, // DB
    5, // DC RIGHT_STR
    0, // DD
    0, // DE
    0, // DF
    5, // E0 MID_STR
    0, // E1
    0, // E2
    0, // E3
    9, // E4 CONCAT_STR
    0, // E5
    0, // E6
    0, // E7
    5, // E8 STR_INIT_ARRAY
    0, // E9
    0, // EA
    0, // EB
    5, // EC STR_LOAD_ARRAY_ELEM
    5, // ED STR_LOAD_ARRAY_DEREF
    0, // EE
    0, // EF
    5, // F0 STR_STORE_ARRAY_ELEM
    5, // F1 STR_STORE_ARRAY_DEREF
    0, // F2
    0, // F3
    8, // F4 CMP_BR_I32
    8, // F5 CMP_BR_I64
    0, // F6
    0, // F7
    8, // F8 METHOD_CALL
    0, // F9
    0, // FA
    0, // FB
    0, // FC
    0, // FD
    0, // FE
    0, // FF
];
