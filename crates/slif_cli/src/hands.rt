// What a run is handed.
use slippers::Supplier;
use valuator::Teller;

/// The tellers, and the supplier where the job may ask it.
#[derive(Drop)]
pub struct Hands {
    pub tellers: Vec<Box<dyn Teller>>,
    pub supplier: Option<Box<dyn Supplier>>,
}
