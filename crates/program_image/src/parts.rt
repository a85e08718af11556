ghost use Rattle.std.specs.Prelude.{◌≡◌, ℕ, List, length, map};
ghost use Rattle.cell_code.specs.declared.image.MessageImage.{MessageImage};
ghost use Rattle.cell_types.specs.Code.{ProgramCode};
ghost use Rattle.cell_types.specs.Groups.{lengths_of, routes_of};
ghost use Rattle.program_image.specs.ImageOf.{messages_of};

/// A law: the routes, labels and lengths of the messages of an image are those of the program's messages.
pub fn messages_keep_their_parts()
    ensures routes { (program : ProgramCode) (labels : List ℕ)
        → map (λ (m : MessageImage). m.route) (messages_of program labels) ≡ routes_of program }
    ensures labels { (program : ProgramCode) (labels : List ℕ) → length labels ≡ length program.messages
        → map (λ (m : MessageImage). m.label) (messages_of program labels) ≡ labels }
    ensures lengths { (program : ProgramCode) (labels : List ℕ)
        → map (λ (m : MessageImage). m.length) (messages_of program labels) ≡ lengths_of program }
{}
