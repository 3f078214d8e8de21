//! The codes that are printed of refusals and faults.
ghost use Rattle.std.specs.Str.{str_eq_ignore_ascii_case};
ghost use Rattle.std.specs.Prelude.{◌≡◌};
ghost use Rattle.std.specs.Array.Iter.{array_into_iter_items};
ghost use Rattle.explain.specs.Codes.{all_codes, code_named, name_of, text_of};

use crate::{
    certificate_texts, layout_texts, module_texts, record_texts_from_1, record_texts_from_11,
    rule_texts_from_1, rule_texts_from_11, trace_texts,
};
use std::array;

/// A code that is printed of a refusal or a fault.
#[derive(Clone, Copy)]
pub enum Code {
    K1,
    K2,
    K3,
    K4,
    K5,
    K6,
    K7,
    K8,
    K9,
    K10,
    K11,
    K12,
    K13,
    K14,
    K15,
    K16,
    K17,
    K18,
    K19,
    K20,
    L1,
    L2,
    L3,
    L4,
    L5,
    L6,
    L7,
    L8,
    L9,
    L10,
    C1,
    C2,
    C3,
    C4,
    C5,
    C6,
    Y1,
    Y2,
    Y3,
    Y4,
    Y5,
    P1,
    P2,
    P3,
    H1,
    H2,
    H3,
    H4,
    H5,
    H6,
    H7,
    H8,
    H9,
    H10,
    H11,
    H12,
    H13,
    H14,
    H15,
    H16,
}

impl Code {
    /// All codes.
    fn all() -> array::IntoIter<Code, 60>
        ensures { array_into_iter_items result ≡ all_codes }
    {
        [
            Code::K1,
            Code::K2,
            Code::K3,
            Code::K4,
            Code::K5,
            Code::K6,
            Code::K7,
            Code::K8,
            Code::K9,
            Code::K10,
            Code::K11,
            Code::K12,
            Code::K13,
            Code::K14,
            Code::K15,
            Code::K16,
            Code::K17,
            Code::K18,
            Code::K19,
            Code::K20,
            Code::L1,
            Code::L2,
            Code::L3,
            Code::L4,
            Code::L5,
            Code::L6,
            Code::L7,
            Code::L8,
            Code::L9,
            Code::L10,
            Code::C1,
            Code::C2,
            Code::C3,
            Code::C4,
            Code::C5,
            Code::C6,
            Code::Y1,
            Code::Y2,
            Code::Y3,
            Code::Y4,
            Code::Y5,
            Code::P1,
            Code::P2,
            Code::P3,
            Code::H1,
            Code::H2,
            Code::H3,
            Code::H4,
            Code::H5,
            Code::H6,
            Code::H7,
            Code::H8,
            Code::H9,
            Code::H10,
            Code::H11,
            Code::H12,
            Code::H13,
            Code::H14,
            Code::H15,
            Code::H16,
        ]
        .into_iter()
    }

    /// The code as it is printed.
    pub fn name(self) -> &'static str
        ensures { result.now ≡ name_of self }
    {
        match self {
            Code::K1 => "K1",
            Code::K2 => "K2",
            Code::K3 => "K3",
            Code::K4 => "K4",
            Code::K5 => "K5",
            Code::K6 => "K6",
            Code::K7 => "K7",
            Code::K8 => "K8",
            Code::K9 => "K9",
            Code::K10 => "K10",
            Code::K11 => "K11",
            Code::K12 => "K12",
            Code::K13 => "K13",
            Code::K14 => "K14",
            Code::K15 => "K15",
            Code::K16 => "K16",
            Code::K17 => "K17",
            Code::K18 => "K18",
            Code::K19 => "K19",
            Code::K20 => "K20",
            Code::L1 => "L1",
            Code::L2 => "L2",
            Code::L3 => "L3",
            Code::L4 => "L4",
            Code::L5 => "L5",
            Code::L6 => "L6",
            Code::L7 => "L7",
            Code::L8 => "L8",
            Code::L9 => "L9",
            Code::L10 => "L10",
            Code::C1 => "C1",
            Code::C2 => "C2",
            Code::C3 => "C3",
            Code::C4 => "C4",
            Code::C5 => "C5",
            Code::C6 => "C6",
            Code::Y1 => "Y1",
            Code::Y2 => "Y2",
            Code::Y3 => "Y3",
            Code::Y4 => "Y4",
            Code::Y5 => "Y5",
            Code::P1 => "P1",
            Code::P2 => "P2",
            Code::P3 => "P3",
            Code::H1 => "H1",
            Code::H2 => "H2",
            Code::H3 => "H3",
            Code::H4 => "H4",
            Code::H5 => "H5",
            Code::H6 => "H6",
            Code::H7 => "H7",
            Code::H8 => "H8",
            Code::H9 => "H9",
            Code::H10 => "H10",
            Code::H11 => "H11",
            Code::H12 => "H12",
            Code::H13 => "H13",
            Code::H14 => "H14",
            Code::H15 => "H15",
            Code::H16 => "H16",
        }
    }

    /// The page of text about the code.
    pub fn text(self) -> &'static str
        ensures { result.now ≡ text_of self }
    {
        match self {
            Code::K1 => rule_texts_from_1::K1,
            Code::K2 => rule_texts_from_1::K2,
            Code::K3 => rule_texts_from_1::K3,
            Code::K4 => rule_texts_from_1::K4,
            Code::K5 => rule_texts_from_1::K5,
            Code::K6 => rule_texts_from_1::K6,
            Code::K7 => rule_texts_from_1::K7,
            Code::K8 => rule_texts_from_1::K8,
            Code::K9 => rule_texts_from_1::K9,
            Code::K10 => rule_texts_from_1::K10,
            Code::K11 => rule_texts_from_11::K11,
            Code::K12 => rule_texts_from_11::K12,
            Code::K13 => rule_texts_from_11::K13,
            Code::K14 => rule_texts_from_11::K14,
            Code::K15 => rule_texts_from_11::K15,
            Code::K16 => rule_texts_from_11::K16,
            Code::K17 => rule_texts_from_11::K17,
            Code::K18 => rule_texts_from_11::K18,
            Code::K19 => rule_texts_from_11::K19,
            Code::K20 => rule_texts_from_11::K20,
            Code::L1 => module_texts::L1,
            Code::L2 => module_texts::L2,
            Code::L3 => module_texts::L3,
            Code::L4 => module_texts::L4,
            Code::L5 => module_texts::L5,
            Code::L6 => module_texts::L6,
            Code::L7 => module_texts::L7,
            Code::L8 => module_texts::L8,
            Code::L9 => module_texts::L9,
            Code::L10 => module_texts::L10,
            Code::C1 => certificate_texts::C1,
            Code::C2 => certificate_texts::C2,
            Code::C3 => certificate_texts::C3,
            Code::C4 => certificate_texts::C4,
            Code::C5 => certificate_texts::C5,
            Code::C6 => certificate_texts::C6,
            Code::Y1 => layout_texts::Y1,
            Code::Y2 => layout_texts::Y2,
            Code::Y3 => layout_texts::Y3,
            Code::Y4 => layout_texts::Y4,
            Code::Y5 => layout_texts::Y5,
            Code::P1 => trace_texts::P1,
            Code::P2 => trace_texts::P2,
            Code::P3 => trace_texts::P3,
            Code::H1 => record_texts_from_1::H1,
            Code::H2 => record_texts_from_1::H2,
            Code::H3 => record_texts_from_1::H3,
            Code::H4 => record_texts_from_1::H4,
            Code::H5 => record_texts_from_1::H5,
            Code::H6 => record_texts_from_1::H6,
            Code::H7 => record_texts_from_1::H7,
            Code::H8 => record_texts_from_1::H8,
            Code::H9 => record_texts_from_1::H9,
            Code::H10 => record_texts_from_1::H10,
            Code::H11 => record_texts_from_11::H11,
            Code::H12 => record_texts_from_11::H12,
            Code::H13 => record_texts_from_11::H13,
            Code::H14 => record_texts_from_11::H14,
            Code::H15 => record_texts_from_11::H15,
            Code::H16 => record_texts_from_11::H16,
        }
    }

    /// Whether this is its name, in upper or lower case.
    fn is_named(self, name: &str) -> bool
        ensures { result ≡ str_eq_ignore_ascii_case (name_of self) name.now }
    {
        self.name().eq_ignore_ascii_case(name)
    }

    /// The code of this name, in upper or lower case.
    pub fn named(name: &str) -> Option<Code>
        ensures { result ≡ code_named name.now }
    {
        for code in Code::all() {
            if code.is_named(name) {
                return Some(code);
            }
        }
        None
    }
}
