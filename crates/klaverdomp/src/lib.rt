// The operator's functions as `klaverdomp_c` exports them: a call record as 18 numbers, a scale and a cap is decoded, the entry is called, and the answer is given back as numbers.
// Every function takes any arguments. The number at the end of a name is the edition of the binary interface.
#![tactic(auto)]

pub mod sessions;

ghost use Rattle.std.specs.Prelude.{◌≡◌};
ghost use Rattle.attention.specs.StepLent.{step_given, step_before, step_after};
ghost use Rattle.call.specs.Lent.{inputs_given, outputs_before, outputs_after};
ghost use Rattle.attention.specs.Outcomes.{attention_of};
ghost use Rattle.attention.specs.Entries.{step_of};
ghost use Rattle.tables.specs.Power.{power_entry_of};
ghost use Rattle.tables.specs.Scale.{default_scale_of};
ghost use Rattle.exponential.specs.ExpNeg.{exp_neg_of, exp_neg_row_of};
ghost use Rattle.call.specs.Answers.{report_of};
ghost use Rattle.interface.specs.Record.{call_of};
ghost use Rattle.interface.specs.Returned.{returned_of, told, value_told, exponential_told, power_told, scale_told, reported_by, returned_by};

use call::{Done, LentInputs, Refusal};

// The number of the answer; the other four numbers go behind the references.
fn tell_answer(
    answer: Result<Done, Refusal>,
    tensor: &mut u64,
    index: &mut u64,
    total: &mut u64,
    masked: &mut u64,
) -> u32
    ensures { reported_by result tensor index total masked ≡ report_of answer }
{
    let told = interface_answer::report(answer);
    *tensor = told.tensor;
    *index = told.index;
    *total = told.total;
    *masked = told.masked;
    told.number
}

// Attention. The result is 0 for done and else the number of the refusal; the four numbers behind it are always written.
pub fn klaverdomp_attention_3<'a>(
    numbers: &[u64],
    scale: f32,
    softcap: f32,
    query: &[f32],
    key: &'a [f32],
    value: &'a [f32],
    boolmask: &[u8],
    floatmask: &[f32],
    pastkey: &'a [f32],
    pastvalue: &'a [f32],
    live: &[i64],
    output: &mut [f32],
    presentkey: &mut [f32],
    presentvalue: &mut [f32],
    scores: &mut [f32],
    work: &mut [f32],
    tensor: &mut u64,
    index: &mut u64,
    total: &mut u64,
    masked: &mut u64,
) -> u32
    ensures { returned_by result tensor index total masked (outputs_after output presentkey presentvalue scores work) ≡ returned_of (attention_of (call_of numbers.now scale softcap) (inputs_given query key value boolmask floatmask pastkey pastvalue live) (outputs_before output presentkey presentvalue scores work)) }
{
    let call = interface_record::decode(numbers, scale, softcap);
    let inputs = LentInputs {
        query,
        key,
        value,
        boolmask,
        floatmask,
        pastkey,
        pastvalue,
        live,
    };
    let answer = entry::attention(call, inputs, output, presentkey, presentvalue, scores, work);
    tell_answer(answer, tensor, index, total, masked)
}

// A step: attention for the records of the step profile, which is lent no masks, live counts and scores. Any other record is refusal 10.
pub fn klaverdomp_step_3<'a>(
    numbers: &[u64],
    scale: f32,
    softcap: f32,
    query: &[f32],
    key: &'a [f32],
    value: &'a [f32],
    pastkey: &'a [f32],
    pastvalue: &'a [f32],
    output: &mut [f32],
    presentkey: &mut [f32],
    presentvalue: &mut [f32],
    work: &mut [f32],
    tensor: &mut u64,
    index: &mut u64,
    total: &mut u64,
    masked: &mut u64,
) -> u32
    ensures { returned_by result tensor index total masked (step_after output presentkey presentvalue work) ≡ returned_of (step_of (call_of numbers.now scale softcap) (step_given query key value pastkey pastvalue) (step_before output presentkey presentvalue work)) }
{
    let call = interface_record::decode(numbers, scale, softcap);
    let stepped = step::step(
        call,
        query,
        key,
        value,
        pastkey,
        pastvalue,
        output,
        presentkey,
        presentvalue,
        work,
    );
    tell_answer(stepped, tensor, index, total, masked)
}

// 1 and the value, or 0 and +0 where there is none.
fn tell(value: Option<f32>, to: &mut f32) -> u32
    ensures { told result to.new ≡ value_told value }
{
    *to = value.unwrap_or(0.0);
    u32::from(value.is_some())
}

// E(d): 1 and the value, or 0 and +0 where it has none.
pub fn klaverdomp_exp_neg_1(d: f32, value: &mut f32) -> u32
    ensures { told result value.new ≡ exponential_told (exp_neg_of d) }
{
    tell(exponential_number::exp_neg(d), value)
}

// Each element s of the row becomes E(largest - s), and +0 where that has no value.
pub fn klaverdomp_exp_neg_row_1(row: &mut [f32], largest: f32)
    ensures { row.new ≡ exp_neg_row_of largest row.old }
{
    exponential_row::exp_neg_row(row, largest);
}

// The entry of the power table at an index below 256: 1 and the value, or 0 and +0 at any other.
pub fn klaverdomp_power_entry_1(index: u64, value: &mut f32) -> u32
    ensures { told result value.new ≡ power_told (power_entry_of index) }
{
    tell(tables::power_entry(index as usize), value)
}

// The default scale of a head size from 1 to 256: 1 and the value, or 0 and +0 of any other.
pub fn klaverdomp_default_scale_1(size: u64, value: &mut f32) -> u32
    ensures { told result value.new ≡ scale_told (default_scale_of size) }
{
    tell(tables::default_scale(size as usize), value)
}
