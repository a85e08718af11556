ghost use Rattle.std.specs.Prelude.{◌≡◌, ◌≢◌, ◌⊎◌, ℕ, ℤ, List};
ghost use Rattle.stream_io.specs.Reading.{HasInputs, Refuses};
ghost use Rattle.stream_io.specs.Results.{IsObjectLine, line_of, meaning_data, result_data};
ghost use Rattle.stream_io.specs.declared.error.InputError.{InputError};
ghost use Rattle.stream_io.specs.declared.error.InputError.TheVariants.{Memory};
ghost use Rattle.stream_io.specs.declared.report.Report.{Report};
ghost use Rattle.sys_base.specs.Grid.{Extent};
ghost use Rattle.sys_base.specs.declared.word.Word.{Word};

/// A law: any bytes have just one list of inputs or break just one rule first, and never both.
pub fn one_input()
    ensures some { (bytes : List ℕ) (g : Extent) (takes : List ℕ) →
        ((inputs : List (List ℤ)) × HasInputs bytes g takes inputs)
        ⊎ ((error : InputError) × (error ≢ Memory) × Refuses bytes g takes error) }
    ensures inputs { (bytes : List ℕ) (g : Extent) (takes : List ℕ) (is js : List (List ℤ)) → HasInputs bytes g takes is
        → HasInputs bytes g takes js → is ≡ js }
    ensures rule { (bytes : List ℕ) (g : Extent) (takes : List ℕ) (e f : InputError) → e ≢ Memory → f ≢ Memory
        → Refuses bytes g takes e → Refuses bytes g takes f → e ≡ f }
    ensures apart { (bytes : List ℕ) (g : Extent) (takes : List ℕ) (is : List (List ℤ)) (e : InputError) → e ≢ Memory
        → HasInputs bytes g takes is → Refuses bytes g takes e → ⊥ }
{}

/// A law: what is printed of a run or of a meaning begins with `{`, and its one newline is its last byte.
pub fn one_line()
    ensures run { (g : Extent) (report : Report) → IsObjectLine (line_of (result_data g report)) }
    ensures meaning { (g : Extent) (outputs : List (List Word)) (emits : List ℕ)
        → IsObjectLine (line_of (meaning_data g outputs emits)) }
{}
