//! What holds of frames, whatever the boxes that they go round.

ghost use Rattle.std.specs.Prelude.{◌≡◌, ◌↔◌, ◌++◌, [], List, Option, None, IsNone, IfSome};
ghost use Rattle.std.specs.Option.{option_to_list};
ghost use Rattle.tk_item.specs.declared.Frame.{Frame};
ghost use Rattle.tk_item.specs.Frame.{round_boxes, IsLeastRound};

/// A frame that is widened by box after box, as that of a whole drawing is, is the least box round all
/// of them. There is only one such box, and there is none exactly where there is nothing to go round.
pub fn frames_are_least()
    ensures least { (frame : Option Frame) (boxes : List Frame)
        → IfSome (round_boxes frame boxes) (IsLeastRound (option_to_list frame ++ boxes)) }
    ensures only { (boxes : List Frame) (f g : Frame)
        → IsLeastRound boxes f → IsLeastRound boxes g → f ≡ g }
    ensures none { (frame : Option Frame) (boxes : List Frame) → IsNone (round_boxes frame boxes)
        ↔ ((frame ≡ None) × (boxes ≡ [])) }
{}
