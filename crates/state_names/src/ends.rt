//! What the two ends of a kind of depend name beside their jobs.

ghost use Rattle.std.specs.Prelude.{◌≡◌};
ghost use Rattle.farm_types.specs.Formed.{names_frame, names_layer, names_target_frame, names_target_layer};

use farm_types::DependKind;

/// Whether the kind names a layer of the end that waits.
pub fn names_layer(kind: DependKind) -> bool
    ensures { result ≡ names_layer kind }
{
    match kind {
        DependKind::JobOnJob | DependKind::JobOnLayer | DependKind::JobOnFrame => false,
        _ => true,
    }
}

/// Whether the kind names a frame of that layer.
pub fn names_frame(kind: DependKind) -> bool
    ensures { result ≡ names_frame kind }
{
    match kind {
        DependKind::FrameOnJob | DependKind::FrameOnLayer | DependKind::FrameOnFrame => true,
        _ => false,
    }
}

/// Whether the kind names a layer of the end that is waited for.
pub fn names_target_layer(kind: DependKind) -> bool
    ensures { result ≡ names_target_layer kind }
{
    match kind {
        DependKind::JobOnJob | DependKind::LayerOnJob | DependKind::FrameOnJob => false,
        _ => true,
    }
}

/// Whether the kind names a frame of that layer.
pub fn names_target_frame(kind: DependKind) -> bool
    ensures { result ≡ names_target_frame kind }
{
    match kind {
        DependKind::JobOnFrame | DependKind::LayerOnFrame | DependKind::FrameOnFrame => true,
        _ => false,
    }
}
