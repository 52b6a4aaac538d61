//! The input that a data text gives: it is valid, and the machine's run on what the text gives is the run of the
//! definitions on that input. And the text that a run leaves: the arrays determine it. Each function here carries one law
//! as its contract.
#![tactic(auto)]

ghost use Rattle.input_laws.specs.Alike.{FirstFormRunsAlike};
ghost use Rattle.input_laws.specs.Bytes.{SameBytes, NoneIsDenied, WorkedBytes};
ghost use Rattle.input_laws.specs.Entries.{WorkedMatrix};
ghost use Rattle.input_laws.specs.Examples.{WorkedInput, WorkedRuns, WorkedText};
ghost use Rattle.input_laws.specs.Inputs.{InputIsValid, ParametersAreValid, ExtentsAreValid, NumbersAreValid, SameStart, SameRuns};
ghost use Rattle.input_laws.specs.Rows.{NoneIsBroken, UnbrokenIsCsr};
ghost use Rattle.input_laws.specs.Texts.{SameArraysSameText, OneText, SameEffectSameText, FirstFormSameText};

/// What a data text gives for a program that keeps the rules is a valid input of it.
pub fn input_is_valid()
    ensures { InputIsValid }
{}

/// Each parameter that a data text gives is in 0 to 2^24.
pub fn parameters_are_valid()
    ensures { ParametersAreValid }
{}

/// On what a data text gives, each extent has a value, and none is negative.
pub fn extents_are_valid()
    ensures { ExtentsAreValid }
{}

/// Each cell of a data array that a data text gives is below 2^64.
pub fn numbers_are_valid()
    ensures { NumbersAreValid }
{}

/// A data text that gives values breaks no matrix of the signature.
pub fn no_matrix_is_broken()
    ensures { NoneIsBroken }
{}

/// Where nothing of a matrix is told as broken, its two lists are in CSR form.
pub fn unbroken_is_csr()
    ensures { UnbrokenIsCsr }
{}

/// The machine starts with the arrays that a run of the definitions starts with.
pub fn same_start()
    ensures { SameStart }
{}

/// The machine's inspector and executor run as the definitions say.
pub fn same_runs()
    ensures { SameRuns }
{}

/// On what a data text gives for a program of the first form, the machine runs that program and the one that is written for
/// it without a fault, and leaves each array of the signature the same behind both.
pub fn first_form_runs_alike()
    ensures { FirstFormRunsAlike }
{}

/// A data text for a loop that copies an array.
pub fn worked_input()
    ensures { WorkedInput }
{}

/// That loop, and the loop that is written for it, on that text.
pub fn worked_runs()
    ensures { WorkedRuns }
{}

/// A data text with a matrix of one row and two entries.
pub fn worked_matrix()
    ensures { WorkedMatrix }
{}

/// Arrays with all their cells that have the same extents and the same cells are printed alike.
pub fn same_arrays_same_text()
    ensures { SameArraysSameText }
{}

/// A run leaves one text at most.
pub fn one_text()
    ensures { OneText }
{}

/// Two programs of the same arrays that leave them the same on the same values leave the same text.
pub fn same_effect_same_text()
    ensures { SameEffectSameText }
{}

/// A program of the first form and the one that is written for it leave the same text of what a data text gives.
pub fn first_form_same_text()
    ensures { FirstFormSameText }
{}

/// The text that a loop that copies an array leaves, and the loop that is written for it.
pub fn worked_text()
    ensures { WorkedText }
{}

/// Where `run` is done on a source and on a text that performs as the source does, both with one data text, it gives the same
/// bytes.
pub fn same_bytes()
    ensures { SameBytes }
{}

/// Where `run` is done on a source, it has no cause to refuse a text that performs as the source does.
pub fn none_is_denied()
    ensures { NoneIsDenied }
{}

/// The bytes that `run` gives of a loop that copies an array, and of the text that is written for it.
pub fn worked_bytes()
    ensures { WorkedBytes }
{}
