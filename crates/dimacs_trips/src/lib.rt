// What is written as a graph file is read as the mesh, and so is every file with the same links in another order or direction: no code, only theorems. `specs` has them.
#![tactic(auto)]
