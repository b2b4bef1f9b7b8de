//! Laws of the definitions. The functions do nothing: what they ensure holds of all texts.

ghost use Rattle.assembly_labels.specs.Laws.{LabelsAddNothing, BytesHaveNoLabels, BytesStay};

/// A text without labels is assembled to the bytes that it has without them.
pub fn labels_add_nothing()
    ensures { LabelsAddNothing }
{}

/// A text that has bytes as it is has no label: no label is a key.
pub fn bytes_have_no_labels()
    ensures { BytesHaveNoLabels }
{}

/// So each text that is assembled without labels keeps its bytes, and all laws of it stay.
pub fn bytes_stay()
    ensures { BytesStay }
{}
