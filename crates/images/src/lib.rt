// Images: the theorems about the stored image, under proofs/. "An image loads exactly if it meets
// every rule." It holds no code, and uses rules for the definitions.
#![tactic(auto)]
