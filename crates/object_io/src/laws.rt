ghost use Rattle.std.specs.Prelude.{◌≡◌, ◌++◌, ℕ, List, All};
ghost use Rattle.cell_code.specs.Images.{IsListed};
ghost use Rattle.cell_code.specs.declared.image.Image.{Image};
ghost use Rattle.cell_code.specs.declared.instruction.Instr.{Instr};
ghost use Rattle.object_io.specs.Objects.{instruction_line, line, object_text};
ghost use Rattle.object_io.specs.Sized.{IsSized, IsSizedInstruction};
ghost use Rattle.object_io.specs.Words.{IsWord};

/// A law: a text that begins with a line has just one first word of it, just one list of the others, and just one rest.
pub fn lines_have_their_words()
    ensures { (first second : List ℕ) (others more : List (List ℕ)) (rest left : List ℕ)
        → IsWord first → IsWord second → All IsWord others → All IsWord more
        → line first others ++ rest ≡ line second more ++ left
        → (first ≡ second) × (others ≡ more) × (rest ≡ left) }
{}

/// A law: a text that begins with the line of an instruction has just one instruction there, and just one rest.
pub fn instructions_have_their_lines()
    ensures { (x y : Instr) (rest left : List ℕ) → IsSizedInstruction x → IsSizedInstruction y
        → instruction_line x ++ rest ≡ instruction_line y ++ left → (x ≡ y) × (rest ≡ left) }
{}

/// A law: two listed images whose numbers fit their fields and which have one text are equal.
pub fn one_image_for_a_text()
    ensures { (one other : Image) → IsListed one → IsListed other → IsSized one → IsSized other
        → object_text one ≡ object_text other → one ≡ other }
{}
