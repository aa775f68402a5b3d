// The letter sets that ETS 300 706 gives under designation 0000 for its Latin national options, as one table of tables: a row for each value of C12 to C14 that has a set, 0 first, and in
// it a letter, as its code point, for each of the thirteen codes. Behind each letter stand its set, its code and itself.

// How many values of C12 to C14 have a set, and how many letters a set has.
pub(crate) const SETS: usize = 7;

pub const POSITIONS: usize = 13;

pub(crate) static LETTERS: [[u32; POSITIONS]; SETS] = [
    // 0: English
    [
        0xA3, // English 23 £
        0x24, // English 24 $
        0x40, // English 40 @
        0x2190, // English 5B ←
        0xBD, // English 5C ½
        0x2192, // English 5D →
        0x2191, // English 5E ↑
        0x23, // English 5F #
        0x2014, // English 60 —
        0xBC, // English 7B ¼
        0x2016, // English 7C ‖
        0xBE, // English 7D ¾
        0xF7, // English 7E ÷
    ],
    // 1: German
    [
        0x23, // German 23 #
        0x24, // German 24 $
        0xA7, // German 40 §
        0xC4, // German 5B Ä
        0xD6, // German 5C Ö
        0xDC, // German 5D Ü
        0x5E, // German 5E ^
        0x5F, // German 5F _
        0xB0, // German 60 °
        0xE4, // German 7B ä
        0xF6, // German 7C ö
        0xFC, // German 7D ü
        0xDF, // German 7E ß
    ],
    // 2: Swedish, Finnish and Hungarian
    [
        0x23, // Swedish 23 #
        0xA4, // Swedish 24 ¤
        0xC9, // Swedish 40 É
        0xC4, // Swedish 5B Ä
        0xD6, // Swedish 5C Ö
        0xC5, // Swedish 5D Å
        0xDC, // Swedish 5E Ü
        0x5F, // Swedish 5F _
        0xE9, // Swedish 60 é
        0xE4, // Swedish 7B ä
        0xF6, // Swedish 7C ö
        0xE5, // Swedish 7D å
        0xFC, // Swedish 7E ü
    ],
    // 3: Italian
    [
        0xA3, // Italian 23 £
        0x24, // Italian 24 $
        0xE9, // Italian 40 é
        0xB0, // Italian 5B °
        0xE7, // Italian 5C ç
        0x2192, // Italian 5D →
        0x2191, // Italian 5E ↑
        0x23, // Italian 5F #
        0xF9, // Italian 60 ù
        0xE0, // Italian 7B à
        0xF2, // Italian 7C ò
        0xE8, // Italian 7D è
        0xEC, // Italian 7E ì
    ],
    // 4: French
    [
        0xE9, // French 23 é
        0xEF, // French 24 ï
        0xE0, // French 40 à
        0xEB, // French 5B ë
        0xEA, // French 5C ê
        0xF9, // French 5D ù
        0xEE, // French 5E î
        0x23, // French 5F #
        0xE8, // French 60 è
        0xE2, // French 7B â
        0xF4, // French 7C ô
        0xFB, // French 7D û
        0xE7, // French 7E ç
    ],
    // 5: Portuguese and Spanish
    [
        0xE7, // Portuguese 23 ç
        0x24, // Portuguese 24 $
        0xA1, // Portuguese 40 ¡
        0xE1, // Portuguese 5B á
        0xE9, // Portuguese 5C é
        0xED, // Portuguese 5D í
        0xF3, // Portuguese 5E ó
        0xFA, // Portuguese 5F ú
        0xBF, // Portuguese 60 ¿
        0xFC, // Portuguese 7B ü
        0xF1, // Portuguese 7C ñ
        0xE8, // Portuguese 7D è
        0xE0, // Portuguese 7E à
    ],
    // 6: Czech and Slovak
    [
        0x23, // Czech 23 #
        0x16F, // Czech 24 ů
        0x10D, // Czech 40 č
        0x165, // Czech 5B ť
        0x17E, // Czech 5C ž
        0xFD, // Czech 5D ý
        0xED, // Czech 5E í
        0x159, // Czech 5F ř
        0xE9, // Czech 60 é
        0xE1, // Czech 7B á
        0x11B, // Czech 7C ě
        0xFA, // Czech 7D ú
        0x161, // Czech 7E š
    ],
];
