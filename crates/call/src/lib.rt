// The call record of attention, its enums, the refusals, and what a call that is done answers. Every number may be anything that its type holds.
#![tactic(auto)]

// The limits of B, of Hq and Hkv, of Sq, Sk and T, and of D and Dv.
pub const MOST_BATCHES: usize = 8;

pub const MOST_HEADS: usize = 32;

pub const MOST_LENGTH: usize = 2048;

pub const MOST_SIZE: usize = 256;

// How the call keeps keys and values: all in the call, past ones in a cache inside the call, or in an outside cache with live counts (ONNX: nonpad_kv_seqlen).
#[derive(Clone, Copy)]
pub enum Form {
    Plain,
    Cached,
    Counted,
}

#[derive(Clone, Copy)]
pub enum MaskKind {
    NoMask,
    Boolean,
    FloatMask,
}

// As given, or absent.
#[derive(Clone, Copy)]
pub enum Scale {
    Absent,
    Given(f32),
}

#[derive(Clone, Copy)]
pub struct Call {
    pub form: Form,
    pub mask: MaskKind,
    pub scale: Scale,
    // 0 of either sign for no cap (ONNX: softcap)
    pub softcap: f32,
    // which scores are shown, or none (ONNX: qk_matmul_output_mode)
    pub mode: Option<usize>,
    pub rank: usize,
    // 0 or 1 (ONNX: is_causal)
    pub causal: usize,
    // B
    pub batches: usize,
    // Hq
    pub qheads: usize,
    // Hkv
    pub kvheads: usize,
    // Sq
    pub qlen: usize,
    // Sk
    pub klen: usize,
    // P
    pub past: usize,
    // D
    pub size: usize,
    // Dv
    pub vsize: usize,
    // the four dimensions of the mask
    pub maskb: usize,
    pub maskh: usize,
    pub maskq: usize,
    pub maskk: usize,
}

// The tensors that a call reads. Those that it writes stay parameters of their own: a struct of `&mut` slices that is passed on needs a clause for each of them, in every contract, that it still is the same slice.
#[derive(Clone, Copy)]
pub struct LentInputs<'a> {
    // Q, K and V
    pub query: &'a [f32],
    pub key: &'a [f32],
    pub value: &'a [f32],
    // the two masks
    pub boolmask: &'a [u8],
    pub floatmask: &'a [f32],
    // the past caches
    pub pastkey: &'a [f32],
    pub pastvalue: &'a [f32],
    // the live counts (ONNX: nonpad_kv_seqlen)
    pub live: &'a [i64],
}

// Why a call, an entry or a file is refused, with the place of the fault where one is searched for. The numbers and places are those of `specs/Answers.antt`.
#[derive(Clone, Copy)]
pub enum Refusal {
    // 1: a dimension, a total length or a size outside its limits
    Limits,
    // 2
    HeadGroups,
    // 3
    Settings,
    // 4
    MaskShape,
    // 5: a tensor or a row to be read of the wrong length
    InputLength,
    // 6: a tensor or a cache to be written of the wrong length
    OutputLength,
    // 7
    LiveCount { index: usize },
    // 8
    MaskCell { index: usize },
    // 9 of a call: an element of that tensor
    Element { tensor: usize, index: usize },
    // 9 of a file: an element of that position, from 0
    Position { position: usize },
    // 10: a record that the step entry does not take
    Profile,
    // 11: the record of a file that begins at that byte is missing or cut, as the first may not be, or its head is wrong
    Record { byte: usize },
    // 16: a buffer that is too small
    Room,
}

// What a call that is done answers: the total length and the number of fully masked rows (blind rows). One that is not answers the first refusal that applies.
#[derive(Clone, Copy)]
pub struct Done {
    pub total: usize,
    pub masked: usize,
}
