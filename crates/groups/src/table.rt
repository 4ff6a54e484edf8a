// The table: the labels of each mode, in the order of their bytes, and the forms of mode 2's data.
//
// A row has the label's first eight bytes as one number, the first on top, 00 where there is none; the label's length; its ninth
// byte, or 0 where it has none; and what the label asks of stamp and data. In modes 0 and 1 this is the width, the kind and the
// mark; in mode 2, which has no stamps, the smallest and the largest length, the number of the first form and how many forms
// there are from that one on. `plain!` and `formed!` keep a row on one line, and behind it stands its label.
//
// The rows of a mode stand in the order of their keys, since they are halved to find one (`find.rt`).

ghost use Rattle.std.specs.Prelude.{◌≡◌, ◌≤◌};
ghost use Rattle.groups.specs.Formats.{form_of};
ghost use Rattle.groups.specs.Stamps.{is_stamped};
ghost use Rattle.groups.specs.Stored.{form_in, format_at, rule_of};

// Data kinds, document 01's letters in this order: N, decimal digits; X, digits and A to F; T, any of space to tilde.
#[derive(Clone, Copy)]
pub enum Kind {
    Digits,
    Hex,
    Text,
}

// No stamp; a stamp with a season letter; a stamp with a space for its season.
#[derive(Clone, Copy)]
pub enum Mark {
    Unstamped,
    Letter,
    Space,
}

impl Mark {
    pub(crate) fn is_stamped(self) -> bool
        ensures { result ≡ is_stamped self }
    {
        matches!(self, Mark::Letter | Mark::Space)
    }
}

// What a label asks of stamp and data: data of one kind and one width, or data of one of some forms and no stamp.
#[derive(Clone, Copy)]
pub enum Rule {
    Plain(Plain),
    Formed(Forms),
}

impl Rule {
    // No label that has forms is stamped.
    pub(crate) fn mark(self) -> Mark
        ensures { result ≡ (rule_of self).mark }
    {
        match self {
            Rule::Plain(plain) => plain.mark,
            Rule::Formed(_) => Mark::Unstamped,
        }
    }
}

#[derive(Clone, Copy)]
pub struct Plain {
    pub width: usize,
    pub kind: Kind,
    pub mark: Mark,
}

#[derive(Clone, Copy)]
pub struct Forms {
    pub smallest: usize,
    pub largest: usize,
    pub first: u8,
    pub count: u8,
}

#[derive(Clone, Copy)]
pub(crate) struct Row {
    pub key: u64,
    pub length: u8,
    pub ninth: u8,
    pub rule: Rule,
}

// A row of modes 0 and 1.
macro_rules! plain {
    ($key:literal, $length:literal, $ninth:literal, $width:literal, $kind:ident, $mark:ident) => {
        Row {
            key: $key,
            length: $length,
            ninth: $ninth,
            rule: Rule::Plain(Plain {
                width: $width,
                kind: Kind::$kind,
                mark: Mark::$mark,
            }),
        }
    };
}

// A row of mode 2.
macro_rules! formed {
    ($key:literal, $length:literal, $ninth:literal, $smallest:literal, $largest:literal, $first:literal, $count:literal) => {
        Row {
            key: $key,
            length: $length,
            ninth: $ninth,
            rule: Rule::Formed(Forms {
                smallest: $smallest,
                largest: $largest,
                first: $first,
                count: $count,
            }),
        }
    };
}

pub(crate) static HISTORIC: [Row; 34] = [
    plain!(0x4144434f00000000, 4, 0, 12, Text, Unstamped), // ADCO
    plain!(0x4144495231000000, 5, 0, 3, Digits, Unstamped), // ADIR1
    plain!(0x4144495232000000, 5, 0, 3, Digits, Unstamped), // ADIR2
    plain!(0x4144495233000000, 5, 0, 3, Digits, Unstamped), // ADIR3
    plain!(0x4144505300000000, 4, 0, 3, Digits, Unstamped), // ADPS
    plain!(0x4241534500000000, 4, 0, 9, Digits, Unstamped), // BASE
    plain!(0x42425248434a4200, 7, 0, 9, Digits, Unstamped), // BBRHCJB
    plain!(0x42425248434a5200, 7, 0, 9, Digits, Unstamped), // BBRHCJR
    plain!(0x42425248434a5700, 7, 0, 9, Digits, Unstamped), // BBRHCJW
    plain!(0x42425248504a4200, 7, 0, 9, Digits, Unstamped), // BBRHPJB
    plain!(0x42425248504a5200, 7, 0, 9, Digits, Unstamped), // BBRHPJR
    plain!(0x42425248504a5700, 7, 0, 9, Digits, Unstamped), // BBRHPJW
    plain!(0x44454d41494e0000, 6, 0, 4, Text, Unstamped), // DEMAIN
    plain!(0x454a50484e000000, 5, 0, 9, Digits, Unstamped), // EJPHN
    plain!(0x454a5048504d0000, 6, 0, 9, Digits, Unstamped), // EJPHPM
    plain!(0x4843484300000000, 4, 0, 9, Digits, Unstamped), // HCHC
    plain!(0x4843485000000000, 4, 0, 9, Digits, Unstamped), // HCHP
    plain!(0x4848504843000000, 5, 0, 1, Text, Unstamped), // HHPHC
    plain!(0x49494e5354000000, 5, 0, 3, Digits, Unstamped), // IINST
    plain!(0x49494e5354310000, 6, 0, 3, Digits, Unstamped), // IINST1
    plain!(0x49494e5354320000, 6, 0, 3, Digits, Unstamped), // IINST2
    plain!(0x49494e5354330000, 6, 0, 3, Digits, Unstamped), // IINST3
    plain!(0x494d415800000000, 4, 0, 3, Digits, Unstamped), // IMAX
    plain!(0x494d415831000000, 5, 0, 3, Digits, Unstamped), // IMAX1
    plain!(0x494d415832000000, 5, 0, 3, Digits, Unstamped), // IMAX2
    plain!(0x494d415833000000, 5, 0, 3, Digits, Unstamped), // IMAX3
    plain!(0x49534f5553430000, 6, 0, 2, Digits, Unstamped), // ISOUSC
    plain!(0x4d4f544445544154, 8, 0, 6, Text, Unstamped), // MOTDETAT
    plain!(0x4f50544152494600, 7, 0, 4, Text, Unstamped), // OPTARIF
    plain!(0x5041505000000000, 4, 0, 5, Digits, Unstamped), // PAPP
    plain!(0x50454a5000000000, 4, 0, 2, Digits, Unstamped), // PEJP
    plain!(0x504d415800000000, 4, 0, 5, Digits, Unstamped), // PMAX
    plain!(0x50504f5400000000, 4, 0, 2, Text, Unstamped), // PPOT
    plain!(0x5054454300000000, 4, 0, 4, Text, Unstamped), // PTEC
];

pub(crate) static STANDARD: [Row; 71] = [
    plain!(0x4144534300000000, 4, 0, 12, Text, Unstamped), // ADSC
    plain!(0x434341494e000000, 5, 0, 5, Digits, Letter), // CCAIN
    plain!(0x434341494e2d3100, 7, 0, 5, Digits, Letter), // CCAIN-1
    plain!(0x434341534e000000, 5, 0, 5, Digits, Letter), // CCASN
    plain!(0x434341534e2d3100, 7, 0, 5, Digits, Letter), // CCASN-1
    plain!(0x4441544500000000, 4, 0, 0, Text, Letter), // DATE
    plain!(0x44504d3100000000, 4, 0, 2, Digits, Space), // DPM1
    plain!(0x44504d3200000000, 4, 0, 2, Digits, Space), // DPM2
    plain!(0x44504d3300000000, 4, 0, 2, Digits, Space), // DPM3
    plain!(0x4541495400000000, 4, 0, 9, Digits, Unstamped), // EAIT
    plain!(0x4541534430310000, 6, 0, 9, Digits, Unstamped), // EASD01
    plain!(0x4541534430320000, 6, 0, 9, Digits, Unstamped), // EASD02
    plain!(0x4541534430330000, 6, 0, 9, Digits, Unstamped), // EASD03
    plain!(0x4541534430340000, 6, 0, 9, Digits, Unstamped), // EASD04
    plain!(0x4541534630310000, 6, 0, 9, Digits, Unstamped), // EASF01
    plain!(0x4541534630320000, 6, 0, 9, Digits, Unstamped), // EASF02
    plain!(0x4541534630330000, 6, 0, 9, Digits, Unstamped), // EASF03
    plain!(0x4541534630340000, 6, 0, 9, Digits, Unstamped), // EASF04
    plain!(0x4541534630350000, 6, 0, 9, Digits, Unstamped), // EASF05
    plain!(0x4541534630360000, 6, 0, 9, Digits, Unstamped), // EASF06
    plain!(0x4541534630370000, 6, 0, 9, Digits, Unstamped), // EASF07
    plain!(0x4541534630380000, 6, 0, 9, Digits, Unstamped), // EASF08
    plain!(0x4541534630390000, 6, 0, 9, Digits, Unstamped), // EASF09
    plain!(0x4541534631300000, 6, 0, 9, Digits, Unstamped), // EASF10
    plain!(0x4541535400000000, 4, 0, 9, Digits, Unstamped), // EAST
    plain!(0x4552513100000000, 4, 0, 9, Digits, Unstamped), // ERQ1
    plain!(0x4552513200000000, 4, 0, 9, Digits, Unstamped), // ERQ2
    plain!(0x4552513300000000, 4, 0, 9, Digits, Unstamped), // ERQ3
    plain!(0x4552513400000000, 4, 0, 9, Digits, Unstamped), // ERQ4
    plain!(0x46504d3100000000, 4, 0, 2, Digits, Space), // FPM1
    plain!(0x46504d3200000000, 4, 0, 2, Digits, Space), // FPM2
    plain!(0x46504d3300000000, 4, 0, 2, Digits, Space), // FPM3
    plain!(0x49524d5331000000, 5, 0, 3, Digits, Unstamped), // IRMS1
    plain!(0x49524d5332000000, 5, 0, 3, Digits, Unstamped), // IRMS2
    plain!(0x49524d5333000000, 5, 0, 3, Digits, Unstamped), // IRMS3
    plain!(0x4c54415246000000, 5, 0, 16, Text, Unstamped), // LTARF
    plain!(0x4d53473100000000, 4, 0, 32, Text, Unstamped), // MSG1
    plain!(0x4d53473200000000, 4, 0, 16, Text, Unstamped), // MSG2
    plain!(0x4e47544600000000, 4, 0, 16, Text, Unstamped), // NGTF
    plain!(0x4e4a4f5552460000, 6, 0, 2, Digits, Unstamped), // NJOURF
    plain!(0x4e4a4f5552462b31, 8, 0, 2, Digits, Unstamped), // NJOURF+1
    plain!(0x4e54415246000000, 5, 0, 2, Digits, Unstamped), // NTARF
    plain!(0x50434f5550000000, 5, 0, 2, Digits, Unstamped), // PCOUP
    plain!(0x504a4f5552462b31, 8, 0, 98, Text, Unstamped), // PJOURF+1
    plain!(0x50504f494e544500, 7, 0, 98, Text, Unstamped), // PPOINTE
    plain!(0x5052454600000000, 4, 0, 2, Digits, Unstamped), // PREF
    plain!(0x50524d0000000000, 3, 0, 14, Text, Unstamped), // PRM
    plain!(0x52454c4149530000, 6, 0, 3, Digits, Unstamped), // RELAIS
    plain!(0x53494e5354490000, 6, 0, 5, Digits, Unstamped), // SINSTI
    plain!(0x53494e5354530000, 6, 0, 5, Digits, Unstamped), // SINSTS
    plain!(0x53494e5354533100, 7, 0, 5, Digits, Unstamped), // SINSTS1
    plain!(0x53494e5354533200, 7, 0, 5, Digits, Unstamped), // SINSTS2
    plain!(0x53494e5354533300, 7, 0, 5, Digits, Unstamped), // SINSTS3
    plain!(0x534d4158494e0000, 6, 0, 5, Digits, Letter), // SMAXIN
    plain!(0x534d4158494e2d31, 8, 0, 5, Digits, Letter), // SMAXIN-1
    plain!(0x534d4158534e0000, 6, 0, 5, Digits, Letter), // SMAXSN
    plain!(0x534d4158534e2d31, 8, 0, 5, Digits, Letter), // SMAXSN-1
    plain!(0x534d4158534e3100, 7, 0, 5, Digits, Letter), // SMAXSN1
    plain!(0x534d4158534e312d, 9, b'1', 5, Digits, Letter), // SMAXSN1-1
    plain!(0x534d4158534e3200, 7, 0, 5, Digits, Letter), // SMAXSN2
    plain!(0x534d4158534e322d, 9, b'1', 5, Digits, Letter), // SMAXSN2-1
    plain!(0x534d4158534e3300, 7, 0, 5, Digits, Letter), // SMAXSN3
    plain!(0x534d4158534e332d, 9, b'1', 5, Digits, Letter), // SMAXSN3-1
    plain!(0x5354474500000000, 4, 0, 8, Hex, Unstamped), // STGE
    plain!(0x554d4f5931000000, 5, 0, 3, Digits, Letter), // UMOY1
    plain!(0x554d4f5932000000, 5, 0, 3, Digits, Letter), // UMOY2
    plain!(0x554d4f5933000000, 5, 0, 3, Digits, Letter), // UMOY3
    plain!(0x55524d5331000000, 5, 0, 3, Digits, Unstamped), // URMS1
    plain!(0x55524d5332000000, 5, 0, 3, Digits, Unstamped), // URMS2
    plain!(0x55524d5333000000, 5, 0, 3, Digits, Unstamped), // URMS3
    plain!(0x5654494300000000, 4, 0, 2, Text, Unstamped), // VTIC
];

pub(crate) static BUSINESS: [Row; 75] = [
    formed!(0x4144530000000000, 3, 0, 12, 12, 26, 1), // ADS
    formed!(0x434f4e4649470000, 6, 0, 4, 5, 10, 2), // CONFIG
    formed!(0x4441544500000000, 4, 0, 17, 17, 1, 1), // DATE
    formed!(0x4441544550413100, 7, 0, 17, 17, 1, 1), // DATEPA1
    formed!(0x4441544550413200, 7, 0, 17, 17, 1, 1), // DATEPA2
    formed!(0x4441544550413300, 7, 0, 17, 17, 1, 1), // DATEPA3
    formed!(0x4441544550413400, 7, 0, 17, 17, 1, 1), // DATEPA4
    formed!(0x4441544550413500, 7, 0, 17, 17, 1, 1), // DATEPA5
    formed!(0x4441544550413600, 7, 0, 17, 17, 1, 1), // DATEPA6
    formed!(0x4465625000000000, 4, 0, 17, 17, 1, 1), // DebP
    formed!(0x446562502d310000, 6, 0, 17, 17, 1, 1), // DebP-1
    formed!(0x446562502d315f32, 8, 0, 17, 17, 1, 1), // DebP-1_2
    formed!(0x446562505f320000, 6, 0, 17, 17, 1, 1), // DebP_2
    formed!(0x454150505f690000, 6, 0, 4, 10, 4, 1), // EAPP_i
    formed!(0x454150505f730000, 6, 0, 4, 10, 4, 1), // EAPP_s
    formed!(0x4541505f69000000, 5, 0, 4, 10, 14, 1), // EAP_i
    formed!(0x4541505f73000000, 5, 0, 4, 10, 14, 1), // EAP_s
    formed!(0x45415f6900000000, 4, 0, 3, 9, 2, 1), // EA_i
    formed!(0x45415f7300000000, 4, 0, 3, 9, 2, 1), // EA_s
    formed!(0x45522b502d315f69, 8, 0, 6, 12, 15, 1), // ER+P-1_i
    formed!(0x45522b502d315f73, 8, 0, 6, 12, 15, 1), // ER+P-1_s
    formed!(0x45522b505f690000, 6, 0, 6, 12, 15, 1), // ER+P_i
    formed!(0x45522b505f730000, 6, 0, 6, 12, 15, 1), // ER+P_s
    formed!(0x45522b5f69000000, 5, 0, 5, 11, 3, 1), // ER+_i
    formed!(0x45522b5f73000000, 5, 0, 5, 11, 3, 1), // ER+_s
    formed!(0x45522d502d315f69, 8, 0, 6, 12, 15, 1), // ER-P-1_i
    formed!(0x45522d502d315f73, 8, 0, 6, 12, 15, 1), // ER-P-1_s
    formed!(0x45522d505f690000, 6, 0, 6, 12, 15, 1), // ER-P_i
    formed!(0x45522d505f730000, 6, 0, 6, 12, 15, 1), // ER-P_s
    formed!(0x45522d5f69000000, 5, 0, 5, 11, 3, 1), // ER-_i
    formed!(0x45522d5f73000000, 5, 0, 5, 11, 3, 1), // ER-_s
    formed!(0x4554415444594e31, 8, 0, 3, 3, 29, 1), // ETATDYN1
    formed!(0x4554415444594e32, 8, 0, 3, 3, 29, 1), // ETATDYN2
    formed!(0x4561502d315f6900, 7, 0, 4, 10, 14, 1), // EaP-1_i
    formed!(0x4561502d315f7300, 7, 0, 4, 10, 14, 1), // EaP-1_s
    formed!(0x4561502d315f7332, 8, 0, 4, 10, 14, 1), // EaP-1_s2
    formed!(0x4561505f73320000, 6, 0, 4, 10, 14, 1), // EaP_s2
    formed!(0x46696e502d310000, 6, 0, 17, 17, 1, 1), // FinP-1
    formed!(0x46696e502d315f32, 8, 0, 17, 17, 1, 1), // FinP-1_2
    formed!(0x4d45535552455331, 8, 0, 10, 10, 27, 1), // MESURES1
    formed!(0x4d45535552455332, 8, 0, 10, 10, 27, 1), // MESURES2
    formed!(0x4d4f444500000000, 4, 0, 8, 8, 9, 1), // MODE
    formed!(0x5041314d4e000000, 5, 0, 3, 7, 20, 1), // PA1MN
    formed!(0x5041315f69000000, 5, 0, 3, 8, 12, 2), // PA1_i
    formed!(0x5041315f73000000, 5, 0, 3, 8, 12, 2), // PA1_s
    formed!(0x5041325f69000000, 5, 0, 3, 8, 12, 2), // PA2_i
    formed!(0x5041325f73000000, 5, 0, 3, 8, 12, 2), // PA2_s
    formed!(0x5041335f69000000, 5, 0, 3, 8, 12, 2), // PA3_i
    formed!(0x5041335f73000000, 5, 0, 3, 8, 12, 2), // PA3_s
    formed!(0x5041345f69000000, 5, 0, 3, 8, 12, 2), // PA4_i
    formed!(0x5041345f73000000, 5, 0, 3, 8, 12, 2), // PA4_s
    formed!(0x5041355f69000000, 5, 0, 3, 8, 12, 2), // PA5_i
    formed!(0x5041355f73000000, 5, 0, 3, 8, 12, 2), // PA5_s
    formed!(0x5041365f69000000, 5, 0, 3, 8, 12, 2), // PA6_i
    formed!(0x5041365f73000000, 5, 0, 3, 8, 12, 2), // PA6_s
    formed!(0x504d41585f690000, 6, 0, 3, 8, 16, 2), // PMAX_i
    formed!(0x504d41585f730000, 6, 0, 3, 8, 16, 2), // PMAX_s
    formed!(0x5052454156495300, 7, 0, 3, 4, 18, 2), // PREAVIS
    formed!(0x5052454156495331, 8, 0, 6, 6, 7, 1), // PREAVIS1
    formed!(0x5052454156495332, 8, 0, 6, 6, 7, 1), // PREAVIS2
    formed!(0x5053000000000000, 2, 0, 3, 8, 16, 2), // PS
    formed!(0x5054434f55523100, 7, 0, 1, 3, 28, 1), // PTCOUR1
    formed!(0x5054434f55523200, 7, 0, 1, 3, 28, 1), // PTCOUR2
    formed!(0x544152494644594e, 8, 0, 5, 7, 5, 2), // TARIFDYN
    formed!(0x5444594e31434400, 7, 0, 21, 21, 8, 1), // TDYN1CD
    formed!(0x5444594e31434600, 7, 0, 21, 21, 8, 1), // TDYN1CF
    formed!(0x5444594e31464400, 7, 0, 21, 21, 8, 1), // TDYN1FD
    formed!(0x5444594e31464600, 7, 0, 21, 21, 8, 1), // TDYN1FF
    formed!(0x5444594e32434400, 7, 0, 21, 21, 8, 1), // TDYN2CD
    formed!(0x5444594e32434600, 7, 0, 21, 21, 8, 1), // TDYN2CF
    formed!(0x5444594e32464400, 7, 0, 21, 21, 8, 1), // TDYN2FD
    formed!(0x5444594e32464600, 7, 0, 21, 21, 8, 1), // TDYN2FF
    formed!(0x54475048495f6900, 7, 0, 4, 8, 21, 5), // TGPHI_i
    formed!(0x54475048495f7300, 7, 0, 4, 8, 21, 5), // TGPHI_s
    formed!(0x5452414d45000000, 5, 0, 4, 4, 0, 1), // TRAME
];

// A form: the fewest and the most characters of such data, and their picture. In a picture 9 stands for a digit, 0 for a
// digit or A to F, * for any of space to tilde, a comma for a comma or a point, and any other character for itself. It
// stands at the end of its room, since data that are shorter stand against its end.
#[derive(Clone, Copy)]
pub(crate) struct Form(pub usize, pub usize, pub [u8; 21]);

// The form of a number; one that takes nothing where there is none. Kept as a match: a constant array is laid out on the stack
// wherever it is named (docs/DECISIONS.md, 48).
#[tactic(auto, unfolding(crate::specs::Stored::form_in, crate::specs::Stored::numbered, crate::specs::Stored::under, crate::specs::Formats::form_of, characters::specs::Answers::pick))]
pub(crate) fn form_of(number: usize) -> Form
    ensures { (form_in result ≡ form_of (format_at number)) × (result.1 ≤ 21) }
{
    match number {
        0 => Form(4, 4, *b"                 TEST"),
        1 => Form(17, 17, *b"    99/99/99 99:99:99"),
        2 => Form(3, 9, *b"            9999999Wh"),
        3 => Form(5, 11, *b"          9999999varh"),
        4 => Form(4, 10, *b"           9999999VAh"),
        5 => Form(5, 5, *b"                ACTIF"),
        6 => Form(7, 7, *b"              INACTIF"),
        7 => Form(6, 6, *b"               TD-***"),
        8 => Form(21, 21, *b"99/99/99 99:99:99-***"),
        9 => Form(8, 8, *b"             CONTROLE"),
        10 => Form(5, 5, *b"                CONSO"),
        11 => Form(4, 4, *b"                 PROD"),
        12 => Form(3, 7, *b"              99999kW"),
        13 => Form(4, 8, *b"             99999TkW"),
        14 => Form(4, 10, *b"           9999999kWh"),
        15 => Form(6, 12, *b"         9999999kvarh"),
        16 => Form(3, 7, *b"              99999kW"),
        17 => Form(4, 8, *b"             99999kVA"),
        18 => Form(3, 3, *b"                  DEP"),
        19 => Form(4, 4, *b"                 DEP "),
        20 => Form(3, 7, *b"              99999kW"),
        21 => Form(4, 8, *b"             99999,99"),
        22 => Form(5, 5, *b"                -9,99"),
        23 => Form(6, 6, *b"               -99,99"),
        24 => Form(7, 7, *b"              -999,99"),
        25 => Form(8, 8, *b"             -9999,99"),
        26 => Form(12, 12, *b"         ************"),
        27 => Form(10, 10, *b"           **********"),
        28 => Form(1, 3, *b"                  ***"),
        29 => Form(3, 3, *b"                  ***"),
        _ => Form(1, 0, *b"                     "),
    }
}
